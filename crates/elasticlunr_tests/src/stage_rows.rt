//! The calls of pipelines and of languages, and what each returns. docs/TABLES.md says how a row is written.

/// The rows.
pub const ROWS: &str = r##"Pipeline: the English trimmer cuts both ends
["EnglishTrimmer"] -> done
["Stage::name"] -> "trimmer"
["filter","hello"] -> "hello"
["filter","hello."] -> "hello"
["filter","it's"] -> "it's"
["filter","james'"] -> "james"
["filter","stop!"] -> "stop"
["filter","first,"] -> "first"
["filter","[tag]"] -> "tag"
["filter","[[[tag]]]"] -> "tag"
["filter","[[!@#@!hello]]]}}}"] -> "hello"
["filter","~!@@@hello***()()()]]"] -> "hello"
["filter","été"] -> "t"
["filter","!!"] -> ""
["filter",""] -> ""
["Stage::filter","[fox]"] -> "fox"

Pipeline: trimmers of class texts
["RegexTrimmer::new","trimmer","0-9A-Za-z\\p{Hiragana}"] -> done
["filter","  こんにちは!"] -> "こんにちは"
["filter","!!"] -> null
["filter","-x9-"] -> "x9"
["RegexTrimmer::new","trimmer","c-ea-db"] -> done
["filter","xaex"] -> "ae"
["filter","f"] -> null
["RegexTrimmer::new","trimmer","aa"] -> done
["filter","baab"] -> "aa"
["filter",""] -> null
["RegexTrimmer::new","trimmer","é-ü"] -> done
["filter","xéöx"] -> "éö"
["RegexTrimmer::new","trimmer"," "] -> done
["filter","a b"] -> " "
["RegexTrimmer::new","trimmer","a-a"] -> done
["filter","bab"] -> "a"
["RegexTrimmer::new","trimmer","{}"] -> done
["filter","a{}b"] -> "{}"
["RegexTrimmer::new","trimmer","."] -> done
["filter","a.b"] -> "."
["RegexTrimmer::new","trimmer","\\p{Latin}"] -> done
["filter","!añ1"] -> "añ"
["RegexTrimmer::new","trimmer","\\p{is_LATIN}"] -> done
["filter","!añ1"] -> "añ"
["name"] -> "trimmer"

Pipeline: a copy of a trimmer
["RegexTrimmer::new","mixed","0-9A-Za-z\\p{Hiragana}"] -> done
["clone"] -> done
["name"] -> "mixed"
["contains","は"] -> true
["contains","!"] -> false
["filter","  こんにちは!"] -> "こんにちは"
["filter","!!"] -> null
["filter","-x9-"] -> "x9"
["Stage::name"] -> "mixed"
["Stage::filter","-x9-"] -> "x9"

Pipeline: bad class texts are refused
["RegexTrimmer::new","trimmer",""] -> refused: bad class text
["RegexTrimmer::new","trimmer","a-"] -> refused: bad class text
["RegexTrimmer::new","trimmer","z-a"] -> refused: bad class text
["RegexTrimmer::new","trimmer","a-b-c"] -> refused: bad class text
["RegexTrimmer::new","trimmer","\\p{Nowhere1}"] -> refused: bad class text
["RegexTrimmer::new","trimmer","\\p{Latin}-z"] -> refused: bad class text
["RegexTrimmer::new","trimmer","a-\\p{Latin}"] -> refused: bad class text
["RegexTrimmer::new","trimmer","\\p{}"] -> refused: bad class text
["RegexTrimmer::new","trimmer","\\p{Latin"] -> refused: bad class text
["RegexTrimmer::new","trimmer","\\pL"] -> refused: bad class text
["RegexTrimmer::new","trimmer","-a"] -> refused: bad class text
["RegexTrimmer::new","trimmer","a-z-9"] -> refused: bad class text
["RegexTrimmer::new","trimmer","^a"] -> refused: bad class text
["RegexTrimmer::new","trimmer","a&&b"] -> refused: bad class text
["RegexTrimmer::new","trimmer","0-9\\p{Hiragana}z-a"] -> refused: bad class text

Pipeline: a trimmer of no script
["RegexTrimmer::of_scripts","none"] -> done
["name"] -> "none"
["filter","abc"] -> null

Pipeline: trimmers of scripts
["script","Latin"] -> done
["RegexTrimmer::of_scripts","latin"] -> done
["name"] -> "latin"
["Stage::filter","!añ1"] -> "añ"
["script","Hangul"] -> done
["RegexTrimmer::of_scripts","trimmer-ko"] -> done
["clone"] -> done
["name"] -> "trimmer-ko"
["filter"," 한글 "] -> "한글"

Pipeline: a trimmer of two scripts
["script","Latin"] -> done
["script","Hiragana"] -> done
["RegexTrimmer::of_scripts","scripts"] -> done
["filter","  こんにちは!"] -> "こんにちは"
["filter","!!"] -> null
["filter","-x9-"] -> "x"
["clone"] -> done
["name"] -> "scripts"
["filter","-x9-"] -> "x"

Pipeline: stop words are whole tokens
["StopWordFilter::new","words","the","","a b","the"] -> done
["clone"] -> done
["name"] -> "words"
["filter","the"] -> null
["filter","The"] -> "The"
["filter","th"] -> "th"
["filter",""] -> null
["filter","a b"] -> null
["Stage::name"] -> "words"
["Stage::filter","fox"] -> "fox"
["Stage::filter","the"] -> null

Pipeline: stop words that stand twice
["StopWordFilter::new","words","the","a","of","the"] -> done
["name"] -> "words"
["stop_words"] -> 3
["filter","the"] -> null
["filter","The"] -> "The"
["filter","of"] -> null
["filter","fox"] -> "fox"
["clone"] -> done
["filter","the"] -> null
["filter","fox"] -> "fox"

Pipeline: the Arabic stemmer touches the first of each alone
["ArabicStemmer"] -> done
["name"] -> "stemmer-ar"
["Stage::name"] -> "stemmer-ar"
["filter","أأ"] -> "اأ"
["filter","ًبً"] -> "بً"
["filter","ـ"] -> null
["filter",""] -> null
["filter","abc"] -> "abc"
["filter","ىـٱ"] -> "اٱ"
["filter","ًأأً"] -> "اأً"
["Stage::filter","أأ"] -> "اأ"

Pipeline: stems of single words
["EnglishStemmer"] -> done
["name"] -> "stemmer"
["Stage::name"] -> "stemmer"
["stem","consolations"] -> "consol"
["stem","rational"] -> "ration"
["stem","agreement"] -> "agreement"
["stem","agreed"] -> "agre"
["stem","feed"] -> "feed"
["stem","knackeries"] -> "knackeri"
["stem","knitting"] -> "knit"
["stem","falling"] -> "fall"
["stem","filing"] -> "file"
["stem","controlling"] -> "control"
["stem","vision"] -> "vision"
["stem","adoption"] -> "adopt"
["stem","crying"] -> "cri"
["stem","yes"] -> "ye"
["stem","lay"] -> "lay"
["stem","try"] -> "tri"
["stem","a\nbing"] -> "a\nbing"
["stem","ab\ns"] -> "ab\n"
["stem","éaßßing"] -> "éaß"
["stem","é"] -> "é"
["stem","ab\ny"] -> "ab\ni"
["stem","abs\n"] -> "abs\n"
["stem","\nings"] -> "\nings"
["stem","\n\nss"] -> "\n\nss"
["stem","\ntotall"] -> "\ntotal"
["stem","totall"] -> "total"
["stem","ying"] -> "ying"
["stem","Ying"] -> "Ying"
["stem","yying"] -> "yy"
["stem","Eggs"] -> "Egg"
["stem",""] -> ""
["filter","consolations"] -> "consol"
["filter","rational"] -> "ration"
["filter","agreement"] -> "agreement"
["filter","agreed"] -> "agre"
["filter","feed"] -> "feed"
["filter","knackeries"] -> "knackeri"
["filter","knitting"] -> "knit"
["filter","falling"] -> "fall"
["filter","filing"] -> "file"
["filter","controlling"] -> "control"
["filter","vision"] -> "vision"
["filter","adoption"] -> "adopt"
["filter","crying"] -> "cri"
["filter","yes"] -> "ye"
["filter","lay"] -> "lay"
["filter","try"] -> "tri"
["filter","a\nbing"] -> "a\nbing"
["filter","ab\ns"] -> "ab\n"
["filter","éaßßing"] -> "éaß"
["filter","é"] -> "é"
["filter","ab\ny"] -> "ab\ni"
["filter","abs\n"] -> "abs\n"
["filter","\nings"] -> "\nings"
["filter","\n\nss"] -> "\n\nss"
["filter","\ntotall"] -> "\ntotal"
["filter","totall"] -> "total"
["filter","ying"] -> "ying"
["filter","Ying"] -> "Ying"
["filter","yying"] -> "yy"
["filter","Eggs"] -> "Egg"
["filter",""] -> ""
["Stage::filter","consolations"] -> "consol"

Pipeline: stems of long words
["EnglishStemmer"] -> done
["stem","aaaaaaaaaaaaaaaaaaaaaaaaaaaaaaaaaaaaaaaaaaaaaaaaaaaaaaaaaaaaaaaaaaaaaaaaaaaaaaaaaaaaaaaaaaaaaaaaaaaaaaaaaaaaaaaaaaaaaaaaaaaaaaaaaaaaaaaaaaaaaaaaaaaaaaaaaaaaaaaaaaaaaaaaaaaaaaaaaaaaaaaaaaaaaaaaaaaaaaaaaaaaaaaaaaaaaaaaaaaaaaaaaaaaaaaaaaaaaaaaaaaaaaaaaaaaaaaaaaaaaaaaaaaaaaaaaaaaaaaaaaaaaaaaaaaaaaaaaaaaaaaaaaaaaaaaaaaaaaaaaaaaaaaaaaaaaaaaaaaaaaaaaaaaaaaaaaaaaaaaaaaaaaaaaaaaaaaaaaaaaaaaaaaaaaaaaaaaaaaaaaaaaaaaaaaaaaaaaaaaaaaaaaaaaaaaaaaaaaaaaaaaaaaaaaaaaaaaaaaaaaaaaaaaaaaaaaaaaaaaaaaaaaaaaaaaaaaaaaaaaaaaaaaaaaaaaaaaaaaaaaaaaaaaaaaaaaaaaaaaaaaaaaaaaaaaaaaaaaaaaaaaaaaaaaaaaaaaaaaaaaaaaaaaaaaaaaaaaaaaaaaaaaaaaaaaaaaaaaaaaaaaaaaaaaaaaaaaaaaaaaaaaaaaaaaaaaaaaaaaaaaaaaaaaaaaaaaaaaaaaaaaaaaaaaaaaaaaaaaaaaaaaaaaaaaaaaaaaaaaaaaaaaaaaaaaaaaaaaaaaaaaaaaaaaaaaaaaaaaaaaaaaaaaaaaaaaaaaaaaaaaaaaaaaaaaaaaaaaaaaaaaaaaaaaaaaaaaaaaaaaaaaaaaaaaaaaaaaaaaaaaaaaaaaaaaaaaaaaaaaaaaaaaaaaaaaaaaaaaaaaaaaaaaaaaaaaaaaaaaaaaaaaaaaaaaaaaaaaaaaaaaaaaaaaaaaaaaaaaaaaaaaaaaaaaaaaaaaaaaaaaaaaaaaaaaaaaaaaaaaaaaaaaaaaaaaaaaaing"] -> "aaaaaaaaaaaaaaaaaaaaaaaaaaaaaaaaaaaaaaaaaaaaaaaaaaaaaaaaaaaaaaaaaaaaaaaaaaaaaaaaaaaaaaaaaaaaaaaaaaaaaaaaaaaaaaaaaaaaaaaaaaaaaaaaaaaaaaaaaaaaaaaaaaaaaaaaaaaaaaaaaaaaaaaaaaaaaaaaaaaaaaaaaaaaaaaaaaaaaaaaaaaaaaaaaaaaaaaaaaaaaaaaaaaaaaaaaaaaaaaaaaaaaaaaaaaaaaaaaaaaaaaaaaaaaaaaaaaaaaaaaaaaaaaaaaaaaaaaaaaaaaaaaaaaaaaaaaaaaaaaaaaaaaaaaaaaaaaaaaaaaaaaaaaaaaaaaaaaaaaaaaaaaaaaaaaaaaaaaaaaaaaaaaaaaaaaaaaaaaaaaaaaaaaaaaaaaaaaaaaaaaaaaaaaaaaaaaaaaaaaaaaaaaaaaaaaaaaaaaaaaaaaaaaaaaaaaaaaaaaaaaaaaaaaaaaaaaaaaaaaaaaaaaaaaaaaaaaaaaaaaaaaaaaaaaaaaaaaaaaaaaaaaaaaaaaaaaaaaaaaaaaaaaaaaaaaaaaaaaaaaaaaaaaaaaaaaaaaaaaaaaaaaaaaaaaaaaaaaaaaaaaaaaaaaaaaaaaaaaaaaaaaaaaaaaaaaaaaaaaaaaaaaaaaaaaaaaaaaaaaaaaaaaaaaaaaaaaaaaaaaaaaaaaaaaaaaaaaaaaaaaaaaaaaaaaaaaaaaaaaaaaaaaaaaaaaaaaaaaaaaaaaaaaaaaaaaaaaaaaaaaaaaaaaaaaaaaaaaaaaaaaaaaaaaaaaaaaaaaaaaaaaaaaaaaaaaaaaaaaaaaaaaaaaaaaaaaaaaaaaaaaaaaaaaaaaaaaaaaaaaaaaaaaaaaaaaaaaaaaaaaaaaaaaaaaaaaaaaaaaaaaaaaaaaaaaaaaaaaaaaaaaaaaaaaaaaaaaaaaaaaaaaaaaaaaaaaaaaaaaaaaaaaaaaaaaaaaaa"
["stem","bbbbbbbbbbbbbbbbbbbbbbbbbbbbbbbbbbbbbbbbbbbbbbbbbbbbbbbbbbbbbbbbbbbbbbbbbbbbbbbbbbbbbbbbbbbbbbbbbbbbbbbbbbbbbbbbbbbbbbbbbbbbbbbbbbbbbbbbbbbbbbbbbbbbbbbbbbbbbbbbbbbbbbbbbbbbbbbbbbbbbbbbbbbbbbbbbbbbbbbbbbbbbbbbbbbbbbbbbbbbbbbbbbbbbbbbbbbbbbbbbbbbbbbbbbbbbbbbbbbbbbbbbbbbbbbbbbbbbbbbbbbbbbbbbbbbbbbbbbbbbbbbbbbbbbbbbbbbbbbbbbbbbbbbbbbbbbbbbbbbbbbbbbbbbbbbbbbbbbbbbbbbbbbbbbbbbbbbbbbbbbbbbbbbbbbbbbbbbbbbbbbbbbbbbbbbbbbbbbbbbbbbbbbbbbbbbbbbbbbbbbbbbbbbbbbbbbbbbbbbbbbbbbbbbbbbbbbbbbbbbbbbbbbbbbbbbbbbbbbbbbbbbbbbbbbbbbbbbbbbbbbbbbbbbbbbbbbbbbbbbbbbbbbbbbbbbbbbbbbbbbbbbbbbbbbbbbbbbbbbbbbbbbbbbbbbbbbbbbbbbbbbbbbbbbbbbbbbbbbbbbbbbbbbbbbbbbbbbbbbbbbbbbbbbbbbbbbbbbbbbbbbbbbbbbbbbbbbbbbbbbbbbbbbbbbbbbbbbbbbbbbbbbbbbbbbbbbbbbbbbbbbbbbbbbbbbbbbbbbbbbbbbbbbbbbbbbbbbbbbbbbbbbbbbbbbbbbbbbbbbbbbbbbbbbbbbbbbbbbbbbbbbbbbbbbbbbbbbbbbbbbbbbbbbbbbbbbbbbbbbbbbbbbbbbbbbbbbbbbbbbbbbbbbbbbbbbbbbbbbbbbbbbbbbbbbbbbbbbbbbbbbbbbbbbbbbbbbbbbbbbbbbbbbbbbbbbbbbbbbbbbbbbbbbbbbbbbbbbbbbbbbbbbbbbbbbbbbbbbbbbbbbbbbbbbbbbbbbbbs"] -> "bbbbbbbbbbbbbbbbbbbbbbbbbbbbbbbbbbbbbbbbbbbbbbbbbbbbbbbbbbbbbbbbbbbbbbbbbbbbbbbbbbbbbbbbbbbbbbbbbbbbbbbbbbbbbbbbbbbbbbbbbbbbbbbbbbbbbbbbbbbbbbbbbbbbbbbbbbbbbbbbbbbbbbbbbbbbbbbbbbbbbbbbbbbbbbbbbbbbbbbbbbbbbbbbbbbbbbbbbbbbbbbbbbbbbbbbbbbbbbbbbbbbbbbbbbbbbbbbbbbbbbbbbbbbbbbbbbbbbbbbbbbbbbbbbbbbbbbbbbbbbbbbbbbbbbbbbbbbbbbbbbbbbbbbbbbbbbbbbbbbbbbbbbbbbbbbbbbbbbbbbbbbbbbbbbbbbbbbbbbbbbbbbbbbbbbbbbbbbbbbbbbbbbbbbbbbbbbbbbbbbbbbbbbbbbbbbbbbbbbbbbbbbbbbbbbbbbbbbbbbbbbbbbbbbbbbbbbbbbbbbbbbbbbbbbbbbbbbbbbbbbbbbbbbbbbbbbbbbbbbbbbbbbbbbbbbbbbbbbbbbbbbbbbbbbbbbbbbbbbbbbbbbbbbbbbbbbbbbbbbbbbbbbbbbbbbbbbbbbbbbbbbbbbbbbbbbbbbbbbbbbbbbbbbbbbbbbbbbbbbbbbbbbbbbbbbbbbbbbbbbbbbbbbbbbbbbbbbbbbbbbbbbbbbbbbbbbbbbbbbbbbbbbbbbbbbbbbbbbbbbbbbbbbbbbbbbbbbbbbbbbbbbbbbbbbbbbbbbbbbbbbbbbbbbbbbbbbbbbbbbbbbbbbbbbbbbbbbbbbbbbbbbbbbbbbbbbbbbbbbbbbbbbbbbbbbbbbbbbbbbbbbbbbbbbbbbbbbbbbbbbbbbbbbbbbbbbbbbbbbbbbbbbbbbbbbbbbbbbbbbbbbbbbbbbbbbbbbbbbbbbbbbbbbbbbbbbbbbbbbbbbbbbbbbbbbbbbbbbbbbbbbbbbbbbbbbbbbbbbbbbbbbbbbbbbbbbbbbbb"

Pipeline: stems of the original's test
["EnglishStemmer"] -> done
["stem","consign"] -> "consign"
["stem","consigned"] -> "consign"
["stem","consigning"] -> "consign"
["stem","consignment"] -> "consign"
["stem","consist"] -> "consist"
["stem","consisted"] -> "consist"
["stem","consistency"] -> "consist"
["stem","consistent"] -> "consist"
["stem","consistently"] -> "consist"
["stem","consisting"] -> "consist"
["stem","consists"] -> "consist"
["stem","consolation"] -> "consol"
["stem","consolations"] -> "consol"
["stem","console"] -> "consol"
["stem","consoled"] -> "consol"
["stem","consoles"] -> "consol"
["stem","consoling"] -> "consol"
["stem","consols"] -> "consol"
["stem","consolatory"] -> "consolatori"
["stem","consolidate"] -> "consolid"
["stem","consolidated"] -> "consolid"
["stem","consolidating"] -> "consolid"
["stem","consonant"] -> "conson"
["stem","consort"] -> "consort"
["stem","consorted"] -> "consort"
["stem","consorting"] -> "consort"
["stem","conspicuous"] -> "conspicu"
["stem","conspicuously"] -> "conspicu"
["stem","conspiracy"] -> "conspiraci"
["stem","conspirator"] -> "conspir"
["stem","conspirators"] -> "conspir"
["stem","conspire"] -> "conspir"
["stem","conspired"] -> "conspir"
["stem","conspiring"] -> "conspir"
["stem","constable"] -> "constabl"
["stem","constables"] -> "constabl"
["stem","constance"] -> "constanc"
["stem","constancy"] -> "constanc"
["stem","knack"] -> "knack"
["stem","knacks"] -> "knack"
["stem","knackeries"] -> "knackeri"
["stem","knave"] -> "knave"
["stem","knaves"] -> "knave"
["stem","kneaded"] -> "knead"
["stem","kneading"] -> "knead"
["stem","knee"] -> "knee"
["stem","knees"] -> "knee"
["stem","kneel"] -> "kneel"
["stem","kneeled"] -> "kneel"
["stem","kneeling"] -> "kneel"
["stem","kneels"] -> "kneel"
["stem","knight"] -> "knight"
["stem","knights"] -> "knight"
["stem","knit"] -> "knit"
["stem","knits"] -> "knit"
["stem","knitted"] -> "knit"
["stem","knitting"] -> "knit"
["stem","knives"] -> "knive"
["stem","knob"] -> "knob"
["stem","knobs"] -> "knob"
["stem","knock"] -> "knock"
["stem","knocked"] -> "knock"
["stem","knocking"] -> "knock"
["stem","knocks"] -> "knock"
["stem","knocker"] -> "knocker"
["stem","knockers"] -> "knocker"
["stem","knot"] -> "knot"
["stem","knots"] -> "knot"
["stem","try"] -> "tri"
["stem","constant"] -> "constant"
["stem","knag"] -> "knag"
["stem","knavish"] -> "knavish"
["stem","knell"] -> "knell"
["stem","knelt"] -> "knelt"
["stem","knew"] -> "knew"
["stem","knick"] -> "knick"
["stem","knif"] -> "knif"
["stem","knife"] -> "knife"
["stem","knopp"] -> "knopp"
["stem","lay"] -> "lay"

Pipeline: an emptied token stays
["EnglishTrimmer"] -> done
["Keep","all"] -> done
["Stage::name"] -> "all"
["Stage::filter","fox"] -> "fox"
["names"] -> ["trimmer","all"]
["run","!!","a"] -> ["","a"]

Pipeline: each kind of stage
["script","Latin"] -> done
["RegexTrimmer::of_scripts","latin"] -> done
["StopWordFilter::new","words","the","a"] -> done
["ArabicStemmer"] -> done
["EnglishStemmer"] -> done
["Keep","all"] -> done
["run","1the!","12","+Eggs+","naïve"] -> ["Egg","naïv"]
["names"] -> ["latin","words","stemmer-ar","stemmer","all"]

Pipeline: a list of tokens in two parts
["EnglishTrimmer"] -> done
["EnglishStemmer"] -> done
["run","[the]","!!"] -> ["the",""]
["run","Eggs"] -> ["Egg"]
["run","[the]","!!","Eggs"] -> ["the","","Egg"]

Pipeline: one token after the other, and the words of a text
["EnglishTrimmer"] -> done
["StopWordFilter::new","words","the","a"] -> done
["EnglishStemmer"] -> done
["run_on","foxes"] -> done
["kept"] -> ["fox"]
["run_on","the"] -> done
["run_on","!!"] -> done
["run_on","(Eggs)"] -> done
["kept"] -> ["fox","","Egg"]
["run_on_words","The New-York (foxes) a !!"] -> ["new","york","fox",""]
["run_on_words"," - "] -> []
["kept"] -> ["fox","","Egg"]

Pipeline with a function: a function that is a stage
["name"] -> "copy"
["Stage::name"] -> "copy"
["filter","a"] -> "a"
["Stage::filter","a"] -> "a"
["filter","b"] -> no memory
["Stage::filter","b"] -> no memory
["clone"] -> done
["name"] -> "copy"
["filter","a"] -> "a"
["names"] -> ["copy","copy"]
["run","a","x"] -> ["a","x"]
["run","a","b"] -> no memory

Pipeline with a function: a token for which there is no memory
["run_on","a"] -> done
["run_on","b"] -> no memory
["kept"] -> ["a"]
["run_on_words","x-Y a"] -> ["x","y","a"]
["run_on_words","a b"] -> no memory

Pipeline with an object: an object that is a stage
["Stage::name"] -> "own"
["Stage::filter","a"] -> "a"
["Stage::filter","b"] -> no memory
["EnglishTrimmer"] -> done
["StopWordFilter::new","words","the","a","of"] -> done
["script","Latin"] -> done
["RegexTrimmer::of_scripts","latin"] -> done
["EnglishStemmer"] -> done
["ArabicStemmer"] -> done
["Keep","all"] -> done
["names"] -> ["own","trimmer","words","latin","stemmer","stemmer-ar","all"]
["run","[the]","!!","Eggs","12","naïve"] -> ["Egg","naïv"]
["run","Eggs","b","foxes"] -> no memory

English
["name"] -> "English"
["code"] -> "en"
["tokenize","New-York"] -> ["new","york"]
["tokenize","İZMİR-ÇAĞ  take the New York-San Francisco flight - "] -> ["i̇zmi̇r","çağ","take","the","new","york","san","francisco","flight"]
["make_pipeline"] -> done
["names"] -> ["trimmer","stopWordFilter","stemmer"]
["run","[the]","!!","Eggs"] -> ["Egg"]
["run_on_words","[The] Eggs of foxes"] -> ["egg","fox"]

Arabic
["name"] -> "Arabic"
["code"] -> "ar"
["tokenize","New-York"] -> ["new","york"]
["tokenize","İZMİR-ÇAĞ  take the New York-San Francisco flight - "] -> ["i̇zmi̇r","çağ","take","the","new","york","san","francisco","flight"]
["make_pipeline"] -> done
["names"] -> ["stemmer-ar"]
["run","ـ","أأ","ًبً"] -> ["اأ","بً"]

Danish
["name"] -> "Danish"
["code"] -> "da"
["tokenize","New-York"] -> ["new","york"]
["tokenize","İZMİR-ÇAĞ  take the New York-San Francisco flight - "] -> ["i̇zmi̇r","çağ","take","the","new","york","san","francisco","flight"]
["make_pipeline"] -> done
["names"] -> ["trimmer-da","stopWordFilter-da"]
["run","på","øen!","42","я"] -> ["øen"]

Dutch
["name"] -> "Dutch"
["code"] -> "du"
["tokenize","New-York"] -> ["new","york"]
["tokenize","İZMİR-ÇAĞ  take the New York-San Francisco flight - "] -> ["i̇zmi̇r","çağ","take","the","new","york","san","francisco","flight"]
["make_pipeline"] -> done
["names"] -> ["trimmer-du","stopWordFilter-du"]
["run","aan","(aan)","øxé!","42","я"] -> ["øxé"]

Finnish
["name"] -> "Finnish"
["code"] -> "fi"
["tokenize","New-York"] -> ["new","york"]
["tokenize","İZMİR-ÇAĞ  take the New York-San Francisco flight - "] -> ["i̇zmi̇r","çağ","take","the","new","york","san","francisco","flight"]
["make_pipeline"] -> done
["names"] -> ["trimmer-fi","stopWordFilter-fi"]
["run","ei","(ei)","øxé!","42","я"] -> ["øxé"]

French
["name"] -> "French"
["code"] -> "fr"
["tokenize","New-York"] -> ["new","york"]
["tokenize","İZMİR-ÇAĞ  take the New York-San Francisco flight - "] -> ["i̇zmi̇r","çağ","take","the","new","york","san","francisco","flight"]
["make_pipeline"] -> done
["names"] -> ["trimmer-fr","stopWordFilter-fr"]
["run","ai","(ai)","øxé!","42","я"] -> ["øxé"]

German
["name"] -> "German"
["code"] -> "de"
["tokenize","New-York"] -> ["new","york"]
["tokenize","İZMİR-ÇAĞ  take the New York-San Francisco flight - "] -> ["i̇zmi̇r","çağ","take","the","new","york","san","francisco","flight"]
["make_pipeline"] -> done
["names"] -> ["trimmer-de","stopWordFilter-de"]
["run","aber","(aber)","øxé!","42","я"] -> ["øxé"]

Italian
["name"] -> "Italian"
["code"] -> "it"
["tokenize","New-York"] -> ["new","york"]
["tokenize","İZMİR-ÇAĞ  take the New York-San Francisco flight - "] -> ["i̇zmi̇r","çağ","take","the","new","york","san","francisco","flight"]
["make_pipeline"] -> done
["names"] -> ["trimmer-it","stopWordFilter-it"]
["run","a","(a)","øxé!","42","я"] -> ["øxé"]

Korean
["name"] -> "Korean"
["code"] -> "ko"
["tokenize","New-York"] -> ["new","york"]
["tokenize","İZMİR-ÇAĞ  take the New York-San Francisco flight - "] -> ["i̇zmi̇r","çağ","take","the","new","york","san","francisco","flight"]
["make_pipeline"] -> done
["names"] -> ["trimmer-ko","stopWordFilter-ko","stemmer-ko"]
["run"," 한글 "," 사랑!"] -> ["한글","사랑"]
["run","어떤","사람"] -> ["사람"]

Norwegian
["name"] -> "Norwegian"
["code"] -> "no"
["tokenize","New-York"] -> ["new","york"]
["tokenize","İZMİR-ÇAĞ  take the New York-San Francisco flight - "] -> ["i̇zmi̇r","çağ","take","the","new","york","san","francisco","flight"]
["make_pipeline"] -> done
["names"] -> ["trimmer-no","stopWordFilter-no"]
["run","alle","(alle)","øxé!","42","я"] -> ["øxé"]

Portuguese
["name"] -> "Portuguese"
["code"] -> "pt"
["tokenize","New-York"] -> ["new","york"]
["tokenize","İZMİR-ÇAĞ  take the New York-San Francisco flight - "] -> ["i̇zmi̇r","çağ","take","the","new","york","san","francisco","flight"]
["make_pipeline"] -> done
["names"] -> ["trimmer-pt","stopWordFilter-pt"]
["run","a","(a)","øxé!","42","я"] -> ["øxé"]

Romanian
["name"] -> "Romanian"
["code"] -> "ro"
["tokenize","New-York"] -> ["new","york"]
["tokenize","İZMİR-ÇAĞ  take the New York-San Francisco flight - "] -> ["i̇zmi̇r","çağ","take","the","new","york","san","francisco","flight"]
["make_pipeline"] -> done
["names"] -> ["trimmer-ro","stopWordFilter-ro"]
["run","acea","(acea)","øxé!","42","я"] -> ["øxé"]

Russian
["name"] -> "Russian"
["code"] -> "ru"
["tokenize","New-York"] -> ["new","york"]
["tokenize","İZMİR-ÇAĞ  take the New York-San Francisco flight - "] -> ["i̇zmi̇r","çağ","take","the","new","york","san","francisco","flight"]
["make_pipeline"] -> done
["names"] -> ["trimmer-ru","stopWordFilter-ru"]
["run","я","и","ёж.","42","fox"] -> ["ёж"]

Spanish
["name"] -> "Spanish"
["code"] -> "es"
["tokenize","New-York"] -> ["new","york"]
["tokenize","İZMİR-ÇAĞ  take the New York-San Francisco flight - "] -> ["i̇zmi̇r","çağ","take","the","new","york","san","francisco","flight"]
["make_pipeline"] -> done
["names"] -> ["trimmer-es","stopWordFilter-es"]
["run","a","(a)","øxé!","42","я"] -> ["øxé"]

Swedish
["name"] -> "Swedish"
["code"] -> "sv"
["tokenize","New-York"] -> ["new","york"]
["tokenize","İZMİR-ÇAĞ  take the New York-San Francisco flight - "] -> ["i̇zmi̇r","çağ","take","the","new","york","san","francisco","flight"]
["make_pipeline"] -> done
["names"] -> ["trimmer-sv","stopWordFilter-sv"]
["run","alla","(alla)","øxé!","42","я"] -> ["øxé"]

Turkish
["name"] -> "Turkish"
["code"] -> "tr"
["tokenize","New-York"] -> ["new","york"]
["tokenize","İZMİR-ÇAĞ  take the New York-San Francisco flight - "] -> ["i̇zmi̇r","çağ","take","the","new","york","san","francisco","flight"]
["make_pipeline"] -> done
["names"] -> ["trimmer-tr","stopWordFilter-tr"]
["run","acaba","(acaba)","øxé!","42","я"] -> ["øxé"]

AnyLanguage of English
["name"] -> "English"
["code"] -> "en"
["tokenize","New-York"] -> ["new","york"]
["tokenize","İZMİR-ÇAĞ  take the New York-San Francisco flight - "] -> ["i̇zmi̇r","çağ","take","the","new","york","san","francisco","flight"]
["make_pipeline"] -> done
["names"] -> ["trimmer","stopWordFilter","stemmer"]
["run","[the]","!!","Eggs"] -> ["Egg"]

AnyLanguage of Arabic
["name"] -> "Arabic"
["code"] -> "ar"
["tokenize","New-York"] -> ["new","york"]
["tokenize","İZMİR-ÇAĞ  take the New York-San Francisco flight - "] -> ["i̇zmi̇r","çağ","take","the","new","york","san","francisco","flight"]
["make_pipeline"] -> done
["names"] -> ["stemmer-ar"]
["run","ـ","أأ","ًبً"] -> ["اأ","بً"]

AnyLanguage of Danish
["name"] -> "Danish"
["code"] -> "da"
["tokenize","New-York"] -> ["new","york"]
["tokenize","İZMİR-ÇAĞ  take the New York-San Francisco flight - "] -> ["i̇zmi̇r","çağ","take","the","new","york","san","francisco","flight"]
["make_pipeline"] -> done
["names"] -> ["trimmer-da","stopWordFilter-da"]
["run","på","øen!","42","я"] -> ["øen"]

AnyLanguage of Dutch
["name"] -> "Dutch"
["code"] -> "du"
["tokenize","New-York"] -> ["new","york"]
["tokenize","İZMİR-ÇAĞ  take the New York-San Francisco flight - "] -> ["i̇zmi̇r","çağ","take","the","new","york","san","francisco","flight"]
["make_pipeline"] -> done
["names"] -> ["trimmer-du","stopWordFilter-du"]
["run","aan","(aan)","øxé!","42","я"] -> ["øxé"]

AnyLanguage of Finnish
["name"] -> "Finnish"
["code"] -> "fi"
["tokenize","New-York"] -> ["new","york"]
["tokenize","İZMİR-ÇAĞ  take the New York-San Francisco flight - "] -> ["i̇zmi̇r","çağ","take","the","new","york","san","francisco","flight"]
["make_pipeline"] -> done
["names"] -> ["trimmer-fi","stopWordFilter-fi"]
["run","ei","(ei)","øxé!","42","я"] -> ["øxé"]

AnyLanguage of French
["name"] -> "French"
["code"] -> "fr"
["tokenize","New-York"] -> ["new","york"]
["tokenize","İZMİR-ÇAĞ  take the New York-San Francisco flight - "] -> ["i̇zmi̇r","çağ","take","the","new","york","san","francisco","flight"]
["make_pipeline"] -> done
["names"] -> ["trimmer-fr","stopWordFilter-fr"]
["run","ai","(ai)","øxé!","42","я"] -> ["øxé"]

AnyLanguage of German
["name"] -> "German"
["code"] -> "de"
["tokenize","New-York"] -> ["new","york"]
["tokenize","İZMİR-ÇAĞ  take the New York-San Francisco flight - "] -> ["i̇zmi̇r","çağ","take","the","new","york","san","francisco","flight"]
["make_pipeline"] -> done
["names"] -> ["trimmer-de","stopWordFilter-de"]
["run","aber","(aber)","øxé!","42","я"] -> ["øxé"]

AnyLanguage of Italian
["name"] -> "Italian"
["code"] -> "it"
["tokenize","New-York"] -> ["new","york"]
["tokenize","İZMİR-ÇAĞ  take the New York-San Francisco flight - "] -> ["i̇zmi̇r","çağ","take","the","new","york","san","francisco","flight"]
["make_pipeline"] -> done
["names"] -> ["trimmer-it","stopWordFilter-it"]
["run","a","(a)","øxé!","42","я"] -> ["øxé"]

AnyLanguage of Korean
["name"] -> "Korean"
["code"] -> "ko"
["tokenize","New-York"] -> ["new","york"]
["tokenize","İZMİR-ÇAĞ  take the New York-San Francisco flight - "] -> ["i̇zmi̇r","çağ","take","the","new","york","san","francisco","flight"]
["make_pipeline"] -> done
["names"] -> ["trimmer-ko","stopWordFilter-ko","stemmer-ko"]
["run"," 한글 "," 사랑!"] -> ["한글","사랑"]
["run","어떤","사람"] -> ["사람"]

AnyLanguage of Norwegian
["name"] -> "Norwegian"
["code"] -> "no"
["tokenize","New-York"] -> ["new","york"]
["tokenize","İZMİR-ÇAĞ  take the New York-San Francisco flight - "] -> ["i̇zmi̇r","çağ","take","the","new","york","san","francisco","flight"]
["make_pipeline"] -> done
["names"] -> ["trimmer-no","stopWordFilter-no"]
["run","alle","(alle)","øxé!","42","я"] -> ["øxé"]

AnyLanguage of Portuguese
["name"] -> "Portuguese"
["code"] -> "pt"
["tokenize","New-York"] -> ["new","york"]
["tokenize","İZMİR-ÇAĞ  take the New York-San Francisco flight - "] -> ["i̇zmi̇r","çağ","take","the","new","york","san","francisco","flight"]
["make_pipeline"] -> done
["names"] -> ["trimmer-pt","stopWordFilter-pt"]
["run","a","(a)","øxé!","42","я"] -> ["øxé"]

AnyLanguage of Romanian
["name"] -> "Romanian"
["code"] -> "ro"
["tokenize","New-York"] -> ["new","york"]
["tokenize","İZMİR-ÇAĞ  take the New York-San Francisco flight - "] -> ["i̇zmi̇r","çağ","take","the","new","york","san","francisco","flight"]
["make_pipeline"] -> done
["names"] -> ["trimmer-ro","stopWordFilter-ro"]
["run","acea","(acea)","øxé!","42","я"] -> ["øxé"]

AnyLanguage of Russian
["name"] -> "Russian"
["code"] -> "ru"
["tokenize","New-York"] -> ["new","york"]
["tokenize","İZMİR-ÇAĞ  take the New York-San Francisco flight - "] -> ["i̇zmi̇r","çağ","take","the","new","york","san","francisco","flight"]
["make_pipeline"] -> done
["names"] -> ["trimmer-ru","stopWordFilter-ru"]
["run","я","и","ёж.","42","fox"] -> ["ёж"]

AnyLanguage of Spanish
["name"] -> "Spanish"
["code"] -> "es"
["tokenize","New-York"] -> ["new","york"]
["tokenize","İZMİR-ÇAĞ  take the New York-San Francisco flight - "] -> ["i̇zmi̇r","çağ","take","the","new","york","san","francisco","flight"]
["make_pipeline"] -> done
["names"] -> ["trimmer-es","stopWordFilter-es"]
["run","a","(a)","øxé!","42","я"] -> ["øxé"]

AnyLanguage of Swedish
["name"] -> "Swedish"
["code"] -> "sv"
["tokenize","New-York"] -> ["new","york"]
["tokenize","İZMİR-ÇAĞ  take the New York-San Francisco flight - "] -> ["i̇zmi̇r","çağ","take","the","new","york","san","francisco","flight"]
["make_pipeline"] -> done
["names"] -> ["trimmer-sv","stopWordFilter-sv"]
["run","alla","(alla)","øxé!","42","я"] -> ["øxé"]

AnyLanguage of Turkish
["name"] -> "Turkish"
["code"] -> "tr"
["tokenize","New-York"] -> ["new","york"]
["tokenize","İZMİR-ÇAĞ  take the New York-San Francisco flight - "] -> ["i̇zmi̇r","çağ","take","the","new","york","san","francisco","flight"]
["make_pipeline"] -> done
["names"] -> ["trimmer-tr","stopWordFilter-tr"]
["run","acaba","(acaba)","øxé!","42","я"] -> ["øxé"]
"##;
