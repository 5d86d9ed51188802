//! The stemmer of German.

/// Its table, after Snowball 2.2.
pub const TABLE: &str = "\
    13 70 19 3 23 0\n\
    +-a ss\n\
    --- 0 0 ß\n\
    ~-a ß 1\n\
    .s- aeiouyäöü\n\
    !s- 3\n\
    !s- 4\n\
    +-a U\n\
    &-- 5 6\n\
    +-a Y\n\
    &-- 5 8\n\
    --- 0 7 u 9 y\n\
    =-- 3 10\n\
    ~-a uy 11\n\
    &-a 2 12\n\
    *sa ^aeiouyäöü\n\
    *sa aeiouyäöü\n\
    .s- ^aeiouyäöü\n\
    &s- 15 16\n\
    &s- 3 17\n\
    &s- 14 18\n\
    &s- 16 19\n\
    &s- 15 20\n\
    &s- 3 21\n\
    &s- 14 22\n\
    @s- 1\n\
    +-a nis\n\
    --- 0 25 niss\n\
    +sa \n\
    |-a 26 27\n\
    &-- 24 28\n\
    .s- bdfghklmnrt\n\
    !s- 30\n\
    !s- 31\n\
    &s- 24 32\n\
    --- 0 24 ern 24 em 29 en 24 er 29 es 29 e 33 s\n\
    |-a 34 27\n\
    .s- bdfghklmnt\n\
    .s- ^\n\
    &s- 37 37\n\
    &s- 37 38\n\
    &s- 36 39\n\
    !s- 40\n\
    !s- 41\n\
    &s- 24 42\n\
    -s- 0 24 est 24 en 24 er 43 st\n\
    |sa 44 27\n\
    @s- 2\n\
    -s- 0 27 e\n\
    !s- 47\n\
    &s- 48 46\n\
    -s- 0 49 ig\n\
    |sa 50 27\n\
    &s- 46 51\n\
    &s- 46 48\n\
    -s- 0 24 en 24 er\n\
    |sa 54 27\n\
    &s- 46 55\n\
    -s- 0 46 lich 46 ig\n\
    |sa 57 27\n\
    &s- 46 58\n\
    -s- 0 56 lich 53 isch 56 heit 59 keit 52 end 52 ung 53 ig 53 ik\n\
    |sa 60 27\n\
    +-a u\n\
    +-a y\n\
    +-a a\n\
    +-a o\n\
    --- 0 62 U 63 Y 64 ä 65 ö 62 ü\n\
    ~-a UYäöü 66\n\
    &-a 61 67\n\
    &-a 45 68\n\
    &-a 35 69";
