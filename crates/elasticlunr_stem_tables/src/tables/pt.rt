//! The stemmer of Portuguese.

/// Its table, after Snowball 2.2.
pub const TABLE: &str = "\
    3 81 10 0 14 0 23 0\n\
    +-a a~\n\
    +-a o~\n\
    --- 0 0 ã 1 õ\n\
    ~-a ãõ 2\n\
    *sa ^aeiouáéíóúâêô\n\
    .s- aeiouáéíóúâêô\n\
    *sa aeiouáéíóúâêô\n\
    .s- ^aeiouáéíóúâêô\n\
    &s- 6 7\n\
    &s- 5 8\n\
    &s- 4 9\n\
    &s- 7 10\n\
    &s- 6 11\n\
    &s- 5 12\n\
    &s- 4 13\n\
    .s- ^\n\
    &s- 4 5\n\
    &s- 7 16\n\
    &s- 15 17\n\
    &s- 5 9\n\
    &s- 5 15\n\
    &s- 7 20\n\
    |s- 19 21\n\
    |s- 18 22\n\
    @s- 2\n\
    +-a log\n\
    &-- 24 25\n\
    +-a u\n\
    &-- 24 27\n\
    +-a ente\n\
    &-- 24 29\n\
    @s- 1\n\
    -s- 0 24 at\n\
    +sa \n\
    |sa 32 33\n\
    &s- 24 34\n\
    -s- 0 24 ic 24 ad 24 os 35 iv\n\
    |sa 36 33\n\
    &s- 31 37\n\
    -s- 0 24 ante 24 avel 24 ível\n\
    |sa 39 33\n\
    &s- 24 40\n\
    -s- 0 24 abil 24 ic 24 iv\n\
    |sa 42 33\n\
    &s- 24 43\n\
    @s- 3\n\
    -s- 0 33 e\n\
    !s- 46\n\
    !s- 47\n\
    +-a ir\n\
    &-- 48 49\n\
    &-- 45 50\n\
    --- 0 24 amentos 24 imentos 38 amente 24 amento 24 imento 30 ências 26 logias 24 adoras \
    44 idades 24 adores 24 aço~es 28 uço~es 24 ância 30 ência 26 logia 24 adora 44 idade 41 \
    mente 24 aça~o 28 uça~o 24 istas 24 antes 24 ismos 24 ista 24 ante 24 ável 24 ível 24 \
    ismo 24 ador 24 icas 51 iras 24 osas 35 ivas 24 ezas 24 icos 24 osos 35 ivos 24 ica 51 \
    ira 24 osa 35 iva 24 eza 24 ico 24 oso 35 ivo\n\
    -s- 3 33 aríamos 33 eríamos 33 iríamos 33 ássemos 33 êssemos 33 íssemos 33 ásseis 33 \
    ésseis 33 ísseis 33 aríeis 33 eríeis 33 iríeis 33 áramos 33 éramos 33 íramos 33 ávamos 33 \
    aremos 33 eremos 33 iremos 33 ariam 33 eriam 33 iriam 33 assem 33 essem 33 issem 33 ara~o \
    33 era~o 33 ira~o 33 arias 33 erias 33 irias 33 ardes 33 erdes 33 irdes 33 asses 33 esses \
    33 isses 33 astes 33 estes 33 istes 33 areis 33 ereis 33 ireis 33 áreis 33 éreis 33 íreis \
    33 áveis 33 íamos 33 armos 33 ermos 33 irmos 33 aria 33 eria 33 iria 33 asse 33 esse 33 \
    isse 33 aste 33 este 33 iste 33 arei 33 erei 33 irei 33 aram 33 eram 33 iram 33 avam 33 \
    arem 33 erem 33 irem 33 ando 33 endo 33 indo 33 adas 33 idas 33 aras 33 eras 33 iras 33 \
    avas 33 ares 33 eres 33 ires 33 íeis 33 ados 33 idos 33 amos 33 emos 33 imos 33 ámos 33 \
    arás 33 erás 33 irás 33 ada 33 ida 33 ara 33 era 33 ira 33 ava 33 iam 33 ado 33 ido 33 \
    ias 33 ais 33 eis 33 ará 33 erá 33 irá 33 ia 33 ei 33 am 33 em 33 ar 33 er 33 ir 33 as 33 \
    es 33 is 33 eu 33 iu 33 ou\n\
    |-- 52 53\n\
    -s- 0 33 c\n\
    !s- 55\n\
    !s- 56\n\
    &s- 57 45\n\
    -s- 0 58 i\n\
    |sa 59 33\n\
    &-- 54 60\n\
    -s- 0 45 os 45 a 45 i 45 o 45 á 45 í 45 ó\n\
    |-- 61 62\n\
    |-a 63 33\n\
    -s- 0 33 g\n\
    !s- 65\n\
    !s- 66\n\
    &s- 67 45\n\
    -s- 0 68 u\n\
    |s- 69 59\n\
    |sa 70 33\n\
    &s- 45 71\n\
    +-a c\n\
    --- 0 72 e 73 ç 72 é 72 ê\n\
    |-a 74 33\n\
    +-a ã\n\
    +-a õ\n\
    --- 0 76 a~ 77 o~\n\
    ~-a ~ 78\n\
    &-a 75 79\n\
    &-a 64 80";

/// Its table, after the Snowball before 2.0.
pub const OLDER: &str = "\
    3 81 10 0 14 0 23 0\n\
    +-a a~\n\
    +-a o~\n\
    --- 0 0 ã 1 õ\n\
    ~-a ãõ 2\n\
    *sa ^aeiouáéíóúâêô\n\
    .s- aeiouáéíóúâêô\n\
    *sa aeiouáéíóúâêô\n\
    .s- ^aeiouáéíóúâêô\n\
    &s- 6 7\n\
    &s- 5 8\n\
    &s- 4 9\n\
    &s- 7 10\n\
    &s- 6 11\n\
    &s- 5 12\n\
    &s- 4 13\n\
    .s- ^\n\
    &s- 4 5\n\
    &s- 7 16\n\
    &s- 15 17\n\
    &s- 5 9\n\
    &s- 5 15\n\
    &s- 7 20\n\
    |s- 19 21\n\
    |s- 18 22\n\
    @s- 2\n\
    +-a log\n\
    &-- 24 25\n\
    +-a u\n\
    &-- 24 27\n\
    +-a ente\n\
    &-- 24 29\n\
    @s- 1\n\
    -s- 0 24 at\n\
    +sa \n\
    |sa 32 33\n\
    &s- 24 34\n\
    -s- 0 24 ic 24 ad 24 os 35 iv\n\
    |sa 36 33\n\
    &s- 31 37\n\
    -s- 0 24 ante 24 avel 24 ível\n\
    |sa 39 33\n\
    &s- 24 40\n\
    -s- 0 24 abil 24 ic 24 iv\n\
    |sa 42 33\n\
    &s- 24 43\n\
    @s- 3\n\
    -s- 0 33 e\n\
    !s- 46\n\
    !s- 47\n\
    +-a ir\n\
    &-- 48 49\n\
    &-- 45 50\n\
    --- 0 28 uciones 24 amentos 24 imentos 38 amente 24 amento 24 imento 30 ências 26 logias \
    24 adoras 44 idades 24 adores 24 aço~es 24 ância 30 ência 26 logia 24 adora 44 idade 41 \
    mente 28 ución 24 aça~o 24 istas 24 antes 24 ismos 24 ista 24 ante 24 ável 24 ível 24 \
    ismo 24 ador 24 icas 51 iras 24 osas 35 ivas 24 ezas 24 icos 24 osos 35 ivos 24 ica 51 \
    ira 24 osa 35 iva 24 eza 24 ico 24 oso 35 ivo\n\
    -s- 3 33 aríamos 33 eríamos 33 iríamos 33 ássemos 33 êssemos 33 íssemos 33 ásseis 33 \
    ésseis 33 ísseis 33 aríeis 33 eríeis 33 iríeis 33 áramos 33 éramos 33 íramos 33 ávamos 33 \
    aremos 33 eremos 33 iremos 33 ariam 33 eriam 33 iriam 33 assem 33 essem 33 issem 33 ara~o \
    33 era~o 33 ira~o 33 arias 33 erias 33 irias 33 ardes 33 erdes 33 irdes 33 asses 33 esses \
    33 isses 33 astes 33 estes 33 istes 33 areis 33 ereis 33 ireis 33 áreis 33 éreis 33 íreis \
    33 áveis 33 íamos 33 armos 33 ermos 33 irmos 33 aria 33 eria 33 iria 33 asse 33 esse 33 \
    isse 33 aste 33 este 33 iste 33 arei 33 erei 33 irei 33 aram 33 eram 33 iram 33 avam 33 \
    arem 33 erem 33 irem 33 ando 33 endo 33 indo 33 adas 33 idas 33 aras 33 eras 33 iras 33 \
    avas 33 ares 33 eres 33 ires 33 íeis 33 ados 33 idos 33 amos 33 emos 33 imos 33 ámos 33 \
    arás 33 erás 33 irás 33 ada 33 ida 33 ara 33 era 33 ira 33 ava 33 iam 33 ado 33 ido 33 \
    ias 33 ais 33 eis 33 ará 33 erá 33 irá 33 ia 33 ei 33 am 33 em 33 ar 33 er 33 ir 33 as 33 \
    es 33 is 33 eu 33 iu 33 ou\n\
    |-- 52 53\n\
    -s- 0 33 c\n\
    !s- 55\n\
    !s- 56\n\
    &s- 57 45\n\
    -s- 0 58 i\n\
    |sa 59 33\n\
    &-- 54 60\n\
    -s- 0 45 os 45 a 45 i 45 o 45 á 45 í 45 ó\n\
    |-- 61 62\n\
    |-a 63 33\n\
    -s- 0 33 g\n\
    !s- 65\n\
    !s- 66\n\
    &s- 67 45\n\
    -s- 0 68 u\n\
    |s- 69 59\n\
    |sa 70 33\n\
    &s- 45 71\n\
    +-a c\n\
    --- 0 72 e 73 ç 72 é 72 ê\n\
    |-a 74 33\n\
    +-a ã\n\
    +-a õ\n\
    --- 0 76 a~ 77 o~\n\
    ~-a ~ 78\n\
    &-a 75 79\n\
    &-a 64 80";
