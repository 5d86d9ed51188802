//! The stemmer of Dutch.

/// Its table, after Snowball 2.2.
pub const TABLE: &str = "\
    22 97 28 3 32 0\n\
    +-a a\n\
    +-a e\n\
    +-a i\n\
    +-a o\n\
    +-a u\n\
    --- 0 0 á 0 ä 1 é 1 ë 2 í 2 ï 3 ó 3 ö 4 ú 4 ü\n\
    ~-a áäéëíïóöúü 5\n\
    .s- aeiouyè\n\
    !s- 7\n\
    !s- 8\n\
    +-a I\n\
    &-- 9 10\n\
    --- 0 11 i\n\
    =-- 7 12\n\
    .s- ^\n\
    !s- 14\n\
    |s- 9 15\n\
    +-a Y\n\
    &-- 16 17\n\
    --- 0 18 y\n\
    |-- 13 19\n\
    ~-a iy 20\n\
    &-a 6 21\n\
    *sa ^aeiouyè\n\
    *sa aeiouyè\n\
    .s- ^aeiouyè\n\
    &s- 24 25\n\
    &s- 7 26\n\
    &s- 23 27\n\
    &s- 25 28\n\
    &s- 24 29\n\
    &s- 7 30\n\
    &s- 23 31\n\
    @s- 1\n\
    +-a heid\n\
    &-- 33 34\n\
    &s- 33 48\n\
    !s- 25\n\
    !s- 37\n\
    +sa \n\
    -s- 0 39 gem\n\
    !s- 40\n\
    &s- 45 14\n\
    -s- 0 39 dd 39 kk 39 tt\n\
    !s- 43\n\
    !s- 44\n\
    |sa 42 39\n\
    &s- 41 46\n\
    &s- 38 47\n\
    .s- ^aeijouyè\n\
    !s- 49\n\
    !s- 50\n\
    &s- 33 51\n\
    --- 0 35 heden 36 ene 52 se 36 en 52 s\n\
    |-a 53 39\n\
    -s- 0 57 e\n\
    &s- 38 46\n\
    &s- 33 56\n\
    |sa 66 39\n\
    @s- 2\n\
    -s- 0 39 c\n\
    !s- 60\n\
    -s- 0 36 en\n\
    |sa 62 39\n\
    &s- 61 63\n\
    &s- 59 64\n\
    -s- 0 65 heid\n\
    -s- 0 59 bar\n\
    |sa 78 39\n\
    -s- 0 39 e\n\
    !s- 69\n\
    &s- 59 70\n\
    -s- 0 71 ig\n\
    |s- 72 42\n\
    |sa 73 39\n\
    &s- 59 74\n\
    |sa 55 39\n\
    &s- 59 76\n\
    -s- 0 77 lijk 59 baar 75 end 75 ing 71 ig\n\
    |sa 67 68\n\
    &sa 58 79\n\
    &s- 55 80\n\
    &sa 58 68\n\
    |sa 81 82\n\
    .s- ^Iaeiouyè\n\
    -s- 0 25 aa 25 ee 25 oo 25 uu\n\
    &s- 84 85\n\
    !s- 86\n\
    !s- 87\n\
    =-- 14 14\n\
    &-- 88 89\n\
    |-a 90 39\n\
    +-a y\n\
    --- 0 2 I 92 Y\n\
    ~-a IY 93\n\
    &-a 91 94\n\
    &-a 83 95\n\
    &-a 54 96";
