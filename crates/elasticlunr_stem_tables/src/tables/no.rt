//! The stemmer of Norwegian.

/// Its table, after Snowball 2.2.
pub const TABLE: &str = "\
    0 26 7 3\n\
    +sa \n\
    *sa ^aeiouyæåø\n\
    .s- aeiouyæåø\n\
    *sa aeiouyæåø\n\
    .s- ^aeiouyæåø\n\
    &s- 3 4\n\
    &s- 2 5\n\
    &s- 1 6\n\
    +-a er\n\
    .s- bcdfghjlmnoprtvyz\n\
    .s- k\n\
    &s- 10 4\n\
    |s- 9 11\n\
    !s- 12\n\
    !s- 13\n\
    --- 1 0 hetenes 0 hetene 0 hetens 0 heten 0 heter 0 endes 0 ande 0 ende 8 erte 0 edes 0 \
    enes 0 ede 0 ane 0 ene 0 ens 0 ers 0 ets 0 het 8 ert 0 ast 0 en 0 ar 0 er 0 as 0 es 0 et \
    0 a 0 e 14 s\n\
    |-a 15 0\n\
    -s- 1 0 dt 0 vt\n\
    !s- 17\n\
    !s- 18\n\
    .s- ^\n\
    &s- 19 20\n\
    |sa 21 0\n\
    -s- 1 0 hetslov 0 eleg 0 elig 0 elov 0 slov 0 leg 0 eig 0 lig 0 els 0 lov 0 ig\n\
    |sa 23 0\n\
    &sa 22 24\n\
    &-a 16 25";
