//! What the words of a language are made of.

use elasticlunr::lang::AnyLanguage;

/// The frequent words of a language, and the parts of its other words, each list with blanks
/// between.
#[derive(Clone, Copy)]
pub struct Letters {
    pub frequent: &'static str,
    pub onsets: &'static str,
    pub vowels: &'static str,
    pub endings: &'static str,
}

const ENGLISH: Letters = Letters {
    frequent: "the of and to a in is that for it as was with be by on not he this are or his from at which but have an had they you were their one all we can her has there been if more when will would who so no out up into them then some its time only could these two may first do any your like other how than what over also after see use such new used way should each make where while file function value type name return code example list set data text page line default option",
    onsets: "b br bl c ch cl cr d dr f fl fr g gl gr h j k l m n p ph pl pr qu r s sc sh sl sp st str t th tr v w y z",
    vowels: "a e i o u a e i o u y ai ea ee ie io oo ou an en in on er or ar al el il ol it at et ic ac",
    endings: "- - - - s ed ing er ly es ness ful able ation ations ational ment ity ive ize izer ous ism al ically iveness ies ence",
};

const NORTHERN: Letters = Letters {
    frequent: "der die und das in zu den mit von ist des sich auf für nicht ein dem eine als auch es an werden aus er hat dass sie nach wird bei och att det som en på är av för de den til med ikke jeg var om han het een van dat niet zijn ja ei se oli kun",
    onsets: "b br bl d dr f fl fr g gl gr h j k kl kn kr l m n p pf pl r s sch sk sp st t tr v w z",
    vowels: "a e i o u ä ö ü å æ ø ei au eu ie aa oo uu an en in er el",
    endings: "- - - en er es ung heit keit lich isch ig ar or na else ning ssa lla het je",
};

const SOUTHERN: Letters = Letters {
    frequent: "de la le et les des en un une du que est pour dans qui par plus au sur il ne se pas di che è per non si con del como más pero sus ya o este sí porque não uma os no se na por mais cu pe care din nu",
    onsets: "b br bl c ch cl cr d dr f fl fr g gl gr gu h j l m n p pl pr qu r s sc sp st t tr v z ç ñ",
    vowels: "a e i o u é è ê à á í ó ú ã õ â î ă ai au eu ou an en in on",
    endings: "- - - s es e o a os as ment tion ción ção zione are ere ire eur ité idad ă ul",
};

const TURKISH: Letters = Letters {
    frequent: "ve bir bu da için ile de çok daha gibi olarak ne kadar olan sonra ama her en mi ben değil var",
    onsets: "b c ç d f g h k l m n p r s ş t v y z",
    vowels: "a e ı i o ö u ü an en ın in ar er ır ir al el",
    endings: "- - lar ler da de dan den ın in lık lik ci cı mak mek İ",
};

const RUSSIAN: Letters = Letters {
    frequent: "и в не на я быть он с что а по это она этот к но они мы весь который из у то за свой ты год от так",
    onsets: "б в г д ж з к л м н п р с т ф х ц ч ш щ ст пр тр",
    vowels: "а е и о у ы э ю я ё ан ен ин ор ар",
    endings: "- - ть ет ют ый ая ое ов ами ость ения",
};

const ARABIC: Letters = Letters {
    frequent: "في من على أن إلى هذا التي الذي عن مع كان لا ما هو كل بعد غير قد بين إذا",
    onsets: "ا ب ت ث ج ح خ د ذ ر ز س ش ص ض ط ظ ع غ ف ق ك ل م ن ه و ي أ إ",
    vowels: "ا و ي َ ُ ِ ـ ة ى آ",
    endings: "- - ة ات ون ين ها نا",
};

const KOREAN: Letters = Letters {
    frequent: "이 그 것 수 등 들 및 나 우리 때 년 가 한 지 대하 오 말 일 그렇 위하",
    onsets: "가 나 다 라 마 바 사 아 자 차 카 타 파 하 고 노 도 로 모 보",
    vowels: "각 간 갈 감 강 개 거 건 검 게 격 견 결 경 계 관 교 구 국 군",
    endings: "- - 는 은 을 를 에서 으로 하다 했다",
};

/// What the words of a language, or of its neighbours, are made of.
pub fn letters_of(language: AnyLanguage) -> Letters {
    match language {
        AnyLanguage::English => ENGLISH,
        AnyLanguage::Arabic => ARABIC,
        AnyLanguage::Korean => KOREAN,
        AnyLanguage::Russian => RUSSIAN,
        AnyLanguage::Turkish => TURKISH,
        AnyLanguage::Danish
        | AnyLanguage::Dutch
        | AnyLanguage::Finnish
        | AnyLanguage::German
        | AnyLanguage::Norwegian
        | AnyLanguage::Swedish => NORTHERN,
        AnyLanguage::French
        | AnyLanguage::Italian
        | AnyLanguage::Portuguese
        | AnyLanguage::Romanian
        | AnyLanguage::Spanish => SOUTHERN,
    }
}
