//! The stemmer of Italian.

/// Its table, after Snowball 2.2.
pub const TABLE: &str = "\
    18 98 24 0 28 0 37 0\n\
    +-a à\n\
    +-a è\n\
    +-a ì\n\
    +-a ò\n\
    +-a ù\n\
    +-a qU\n\
    --- 0 5 qu 0 á 1 é 2 í 3 ó 4 ú\n\
    ~-a áéíóúq 6\n\
    .s- aeiouàèìòù\n\
    !s- 8\n\
    !s- 9\n\
    +-a U\n\
    &-- 10 11\n\
    +-a I\n\
    &-- 10 13\n\
    --- 0 14 i 12 u\n\
    =-- 8 15\n\
    ~-a ui 16\n\
    &-a 7 17\n\
    *sa ^aeiouàèìòù\n\
    *sa aeiouàèìòù\n\
    .s- ^aeiouàèìòù\n\
    &s- 20 21\n\
    &s- 8 22\n\
    &s- 19 23\n\
    &s- 21 24\n\
    &s- 20 25\n\
    &s- 8 26\n\
    &s- 19 27\n\
    .s- ^\n\
    &s- 19 8\n\
    &s- 21 30\n\
    &s- 29 31\n\
    &s- 8 23\n\
    &s- 8 29\n\
    &s- 21 34\n\
    |s- 33 35\n\
    |s- 32 36\n\
    @s- 3\n\
    +-a ando\n\
    &-- 38 39\n\
    +-a endo\n\
    &-- 38 41\n\
    +-a are\n\
    &-- 38 43\n\
    +-a ere\n\
    &-- 38 45\n\
    +-a ire\n\
    &-- 38 47\n\
    --- 0 40 ando 42 endo 44 ar 46 er 48 ir\n\
    --- 0 49 gliela 49 gliele 49 gliene 49 glieli 49 glielo 49 cela 49 mela 49 tela 49 vela \
    49 cele 49 mele 49 tele 49 vele 49 cene 49 mene 49 sene 49 tene 49 vene 49 celi 49 meli \
    49 teli 49 veli 49 celo 49 melo 49 telo 49 velo 49 gli 49 la 49 le 49 ne 49 ci 49 li 49 \
    mi 49 si 49 ti 49 vi 49 lo\n\
    +sa \n\
    |-a 50 51\n\
    @s- 2\n\
    -s- 0 53 ic\n\
    |sa 54 51\n\
    &s- 53 55\n\
    +-a log\n\
    &-- 53 57\n\
    +-a u\n\
    &-- 53 59\n\
    +-a ente\n\
    &-- 53 61\n\
    @s- 1\n\
    -s- 0 53 at\n\
    |sa 64 51\n\
    &s- 53 65\n\
    -s- 0 53 abil 53 ic 53 os 66 iv\n\
    |sa 67 51\n\
    &s- 63 68\n\
    -s- 0 53 abil 53 ic 53 iv\n\
    |sa 70 51\n\
    &s- 53 71\n\
    -s- 0 56 at\n\
    |sa 73 51\n\
    &s- 53 74\n\
    --- 0 53 atrice 60 usione 56 azione 60 uzione 69 amente 53 atrici 60 usioni 56 azioni 60 \
    uzioni 38 amenti 38 imenti 38 amento 38 imento 58 logia 58 logie 53 abile 53 ibile 56 \
    atore 53 mente 53 abili 53 ibili 56 atori 53 ista 53 anza 62 enza 53 iche 53 ante 53 iste \
    53 anze 62 enze 53 ichi 53 ismi 53 anti 53 isti 53 ismo 53 istà 53 istè 53 istì 53 ica 53 \
    osa 75 iva 53 ice 53 ose 75 ive 53 ici 53 osi 75 ivi 53 ico 53 oso 75 ivo 72 ità\n\
    -s- 3 51 erebbero 51 irebbero 51 erebbe 51 irebbe 51 ereste 51 ireste 51 eresti 51 iresti \
    51 assimo 51 eremmo 51 iremmo 51 iscano 51 eranno 51 iranno 51 iscono 51 assero 51 essero \
    51 issero 51 avate 51 evate 51 ivate 51 erete 51 irete 51 avamo 51 evamo 51 ivamo 51 \
    eremo 51 iremo 51 avano 51 evano 51 ivano 51 arono 51 erono 51 irono 51 isca 51 enda 51 \
    isce 51 ende 51 asse 51 erai 51 irai 51 isci 51 endi 51 erei 51 irei 51 assi 51 isco 51 \
    ando 51 endo 51 Yamo 51 iamo 51 ammo 51 emmo 51 immo 51 ata 51 ita 51 uta 51 ava 51 eva \
    51 iva 51 are 51 ere 51 ire 51 ate 51 ete 51 ite 51 ute 51 ati 51 iti 51 uti 51 avi 51 \
    evi 51 ivi 51 ano 51 ono 51 ato 51 ito 51 uto 51 avo 51 evo 51 ivo 51 erà 51 irà 51 erò \
    51 irò 51 ar 51 ir\n\
    |-- 76 77\n\
    |-a 78 51\n\
    .s- aeioàèìò\n\
    -s- 0 38 i\n\
    |sa 81 51\n\
    &s- 38 82\n\
    &s- 80 83\n\
    |sa 84 51\n\
    .s- cg\n\
    &s- 86 38\n\
    !s- 87\n\
    !s- 88\n\
    -s- 0 89 h\n\
    |sa 90 51\n\
    +-a i\n\
    --- 0 92 I 59 U\n\
    ~-a UI 93\n\
    &-a 91 94\n\
    &-a 85 95\n\
    &-a 79 96\n\
    &-a 52 97";
