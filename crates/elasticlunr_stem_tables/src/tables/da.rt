//! The stemmer of Danish.

/// Its table, after Snowball 2.2.
pub const TABLE: &str = "\
    0 35 7 3\n\
    +sa \n\
    *sa ^aeiouyæåø\n\
    .s- aeiouyæåø\n\
    *sa aeiouyæåø\n\
    .s- ^aeiouyæåø\n\
    &s- 3 4\n\
    &s- 2 5\n\
    &s- 1 6\n\
    .s- abcdfghjklmnoprtvyzå\n\
    !s- 8\n\
    !s- 9\n\
    -s- 1 0 erendes 0 erende 0 hedens 0 ethed 0 erede 0 heden 0 heder 0 endes 0 ernes 0 erens \
    0 erets 0 ered 0 ende 0 erne 0 eren 0 erer 0 heds 0 enes 0 eres 0 eret 0 hed 0 ene 0 ere \
    0 ens 0 ers 0 ets 0 en 0 er 0 es 0 et 0 e 10 s\n\
    |sa 11 0\n\
    &s- 16 17\n\
    -s- 1 0 gd 0 dt 0 gt 0 kt\n\
    !s- 14\n\
    !s- 15\n\
    .s- ^\n\
    |sa 13 0\n\
    +-a ig\n\
    --- 0 19 igst\n\
    |-a 20 0\n\
    +-a løs\n\
    --- 1 18 elig 22 løst 18 lig 18 els 18 ig\n\
    |-a 23 0\n\
    @s- 1\n\
    &s- 17 25\n\
    !s- 26\n\
    !s- 27\n\
    :s- bcdfghjklmnpqrstvwxz\n\
    &s- 28 29\n\
    |sa 30 0\n\
    &-a 24 31\n\
    &-a 21 32\n\
    &-a 18 33\n\
    &-a 12 34";

/// Its table, after the Snowball before 2.0.
pub const OLDER: &str = "\
    0 35 7 3\n\
    +sa \n\
    *sa ^aeiouyæåø\n\
    .s- aeiouyæåø\n\
    *sa aeiouyæåø\n\
    .s- ^aeiouyæåø\n\
    &s- 3 4\n\
    &s- 2 5\n\
    &s- 1 6\n\
    .s- abcdfghjklmnoprtvyzå\n\
    !s- 8\n\
    !s- 9\n\
    -s- 1 0 erendes 0 erende 0 hedens 0 ethed 0 erede 0 heden 0 heder 0 endes 0 ernes 0 erens \
    0 erets 0 ered 0 ende 0 erne 0 eren 0 erer 0 heds 0 enes 0 eres 0 eret 0 hed 0 ene 0 ere \
    0 ens 0 ers 0 ets 0 en 0 er 0 es 0 et 0 e 10 s\n\
    |sa 11 0\n\
    &s- 16 17\n\
    -s- 1 0 gd 0 dt 0 gt 0 kt\n\
    !s- 14\n\
    !s- 15\n\
    .s- ^\n\
    |sa 13 0\n\
    +-a ig\n\
    --- 0 19 igst\n\
    |-a 20 0\n\
    +-a løs\n\
    --- 1 18 elig 22 løst 18 lig 18 els 18 ig\n\
    |-a 23 0\n\
    @s- 1\n\
    &s- 17 25\n\
    !s- 26\n\
    !s- 27\n\
    :s- ^aeiouyæåø\n\
    &s- 28 29\n\
    |sa 30 0\n\
    &-a 24 31\n\
    &-a 21 32\n\
    &-a 18 33\n\
    &-a 12 34";
