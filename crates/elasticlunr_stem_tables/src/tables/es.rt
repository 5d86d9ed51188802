//! The stemmer of Spanish.

/// Its table, after Snowball 2.2.
pub const TABLE: &str = "\
    0 89 7 0 11 0 20 0\n\
    +sa \n\
    *sa ^aeiouáéíóúü\n\
    .s- aeiouáéíóúü\n\
    *sa aeiouáéíóúü\n\
    .s- ^aeiouáéíóúü\n\
    &s- 3 4\n\
    &s- 2 5\n\
    &s- 1 6\n\
    &s- 4 7\n\
    &s- 3 8\n\
    &s- 2 9\n\
    &s- 1 10\n\
    .s- ^\n\
    &s- 1 2\n\
    &s- 4 13\n\
    &s- 12 14\n\
    &s- 2 6\n\
    &s- 2 12\n\
    &s- 4 17\n\
    |s- 16 18\n\
    |s- 15 19\n\
    @s- 3\n\
    +-a iendo\n\
    &-- 21 22\n\
    +-a ando\n\
    &-- 21 24\n\
    +-a ar\n\
    &-- 21 26\n\
    +-a er\n\
    &-- 21 28\n\
    +-a ir\n\
    &-- 21 30\n\
    -s- 0 0 u\n\
    !s- 32\n\
    !s- 33\n\
    +-a yendo\n\
    &-- 34 35\n\
    &-- 21 36\n\
    --- 0 23 iendo 37 yendo 23 iéndo 25 ando 25 ándo 27 ar 29 er 31 ir 27 ár 29 ér 31 ír\n\
    --- 0 38 selas 38 selos 38 sela 38 selo 38 las 38 les 38 los 38 nos 38 la 38 le 38 me 38 \
    se 38 lo\n\
    |-a 39 0\n\
    @s- 2\n\
    -s- 0 41 ic\n\
    |sa 42 0\n\
    &s- 41 43\n\
    +-a log\n\
    &-- 41 45\n\
    +-a u\n\
    &-- 41 47\n\
    +-a ente\n\
    &-- 41 49\n\
    @s- 1\n\
    -s- 0 41 at\n\
    |sa 52 0\n\
    &s- 41 53\n\
    -s- 0 41 ic 41 ad 41 os 54 iv\n\
    |sa 55 0\n\
    &s- 51 56\n\
    -s- 0 41 able 41 ible 41 ante\n\
    |sa 58 0\n\
    &s- 41 59\n\
    -s- 0 41 abil 41 ic 41 iv\n\
    |sa 61 0\n\
    &s- 41 62\n\
    --- 0 41 amientos 41 imientos 41 amiento 41 imiento 44 aciones 48 uciones 57 amente 44 \
    ancias 50 encias 44 adoras 46 logías 63 idades 44 adores 44 ancia 50 encia 44 adora 46 \
    logía 60 mente 44 ación 48 ución 41 istas 41 anzas 41 ables 41 ibles 44 antes 41 ismos 41 \
    ista 41 anza 63 idad 41 able 41 ible 44 ante 41 ismo 44 ador 41 icas 41 osas 54 ivas 41 \
    icos 41 osos 54 ivos 41 ica 41 osa 54 iva 41 ico 41 oso 54 ivo\n\
    -s- 3 34 yeron 34 yendo 34 yamos 34 yais 34 yan 34 yen 34 yas 34 yes 34 ya 34 ye 34 yo 34 \
    yó\n\
    -s- 0 0 g\n\
    !s- 66\n\
    !s- 67\n\
    -s- 0 68 u\n\
    |sa 69 0\n\
    -s- 3 0 iéramos 0 aríamos 0 eríamos 0 iríamos 0 iésemos 0 ierais 0 aríais 0 eríais 0 \
    iríais 0 ieseis 0 asteis 0 isteis 0 ábamos 0 áramos 0 aremos 0 eremos 0 iremos 0 ásemos 0 \
    ieran 0 arían 0 erían 0 irían 0 iesen 0 ieron 0 iendo 0 ieras 0 arías 0 erías 0 irías 0 \
    ieses 0 abais 0 arais 0 aseis 0 aréis 0 eréis 0 iréis 0 íamos 0 iera 0 aría 0 ería 0 iría \
    0 iese 0 aste 0 iste 0 aban 0 aran 0 asen 0 aron 0 arán 0 erán 0 irán 0 ando 0 abas 0 \
    adas 0 idas 0 aras 0 ases 0 íais 0 ados 0 idos 0 amos 70 emos 0 imos 0 arás 0 erás 0 irás \
    0 aba 0 ada 0 ida 0 ara 0 ase 0 ían 0 ado 0 ido 0 ías 0 áis 70 éis 0 ará 0 erá 0 irá 0 \
    aré 0 eré 0 iré 0 ía 0 ad 0 ed 0 id 0 an 70 en 0 ar 0 er 0 ir 0 as 70 es 0 ís 0 ió\n\
    |s- 65 71\n\
    |-- 64 72\n\
    |-a 73 0\n\
    &s- 68 21\n\
    -s- 0 75 u\n\
    |sa 76 0\n\
    &s- 21 77\n\
    -s- 0 21 os 21 a 78 e 21 o 21 á 78 é 21 í 21 ó\n\
    |sa 79 0\n\
    +-a a\n\
    +-a e\n\
    +-a i\n\
    +-a o\n\
    --- 0 81 á 82 é 83 í 84 ó 47 ú\n\
    ~-a áéíóú 85\n\
    &-a 80 86\n\
    &-a 74 87\n\
    &-a 40 88";
