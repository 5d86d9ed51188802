//! The stemmer of Swedish.

/// Its table, after Snowball 2.2.
pub const TABLE: &str = "\
    0 24 7 3\n\
    +sa \n\
    *sa ^aeiouyäåö\n\
    .s- aeiouyäåö\n\
    *sa aeiouyäåö\n\
    .s- ^aeiouyäåö\n\
    &s- 3 4\n\
    &s- 2 5\n\
    &s- 1 6\n\
    .s- bcdfghjklmnoprtvy\n\
    !s- 8\n\
    !s- 9\n\
    -s- 1 0 heterna 0 hetens 0 anden 0 heten 0 heter 0 arnas 0 ernas 0 ornas 0 andes 0 arens \
    0 andet 0 arna 0 erna 0 orna 0 ande 0 arne 0 aste 0 aren 0 ades 0 erns 0 ade 0 are 0 ern \
    0 ens 0 het 0 ast 0 ad 0 en 0 ar 0 er 0 or 0 as 0 es 0 at 0 a 0 e 10 s\n\
    |sa 11 0\n\
    -s- 1 0 dd 0 gd 0 nn 0 dt 0 gt 0 kt 0 tt\n\
    !s- 13\n\
    !s- 14\n\
    .s- ^\n\
    &s- 15 16\n\
    |sa 17 0\n\
    +-a lös\n\
    +-a full\n\
    --- 1 20 fullt 19 löst 0 lig 0 els 0 ig\n\
    |-a 21 0\n\
    &-a 18 22\n\
    &-a 12 23";
