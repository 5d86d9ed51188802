//! The stemmer of Finnish.

/// Its table, after Snowball 2.2.
pub const TABLE: &str = "\
    0 127 7 0 11 0\n\
    +sa \n\
    *sa ^aeiouyäö\n\
    .s- aeiouyäö\n\
    *sa aeiouyäö\n\
    .s- ^aeiouyäö\n\
    &s- 3 4\n\
    &s- 2 5\n\
    &s- 1 6\n\
    &s- 4 7\n\
    &s- 3 8\n\
    &s- 2 9\n\
    &s- 1 10\n\
    .s- aeiouyäönt\n\
    !s- 12\n\
    !s- 13\n\
    @s- 2\n\
    -s- 1 14 kaan 14 kään 15 sti 14 han 14 kin 14 hän 14 pa 14 ko 14 pä 14 kö\n\
    |sa 16 0\n\
    -s- 0 0 k\n\
    !s- 18\n\
    !s- 19\n\
    !s- 20\n\
    +-a ksi\n\
    --- 0 22 kse\n\
    |-a 23 0\n\
    -s- 0 0 lla 0 ssa 0 lta 0 sta 0 na 0 ta\n\
    !s- 25\n\
    !s- 26\n\
    -s- 0 0 llä 0 ssä 0 ltä 0 stä 0 nä 0 tä\n\
    !s- 28\n\
    !s- 29\n\
    -s- 0 0 lle 0 ine\n\
    !s- 31\n\
    !s- 32\n\
    --- 1 0 nsa 0 mme 0 nne 0 nsä 24 ni 21 si 27 an 33 en 30 än\n\
    |-a 34 0\n\
    .s- i\n\
    .s- aeiouäö\n\
    @s- 1\n\
    &s- 37 38\n\
    &s- 36 39\n\
    !s- 40\n\
    !s- 41\n\
    -s- 1 0 aa 0 ee 0 ii 0 oo 0 uu 0 ää 0 öö\n\
    !s- 43\n\
    !s- 44\n\
    -s- 1 45 seen 42 tten 42 siin 42 den\n\
    -s- 0 0 a\n\
    !s- 47\n\
    !s- 48\n\
    -s- 0 0 e\n\
    !s- 50\n\
    !s- 51\n\
    -s- 0 0 i\n\
    !s- 53\n\
    !s- 54\n\
    -s- 0 0 o\n\
    !s- 56\n\
    !s- 57\n\
    -s- 0 0 ä\n\
    !s- 59\n\
    !s- 60\n\
    -s- 0 0 ö\n\
    !s- 62\n\
    !s- 63\n\
    -s- 0 0 aa 0 ee 0 ie 0 ii 0 oo 0 uu 0 ää 0 öö\n\
    !s- 65\n\
    !s- 66\n\
    .s- ^\n\
    &s- 67 68\n\
    |sa 69 0\n\
    .s- bcdfghjklmnpqrstvwxz\n\
    &s- 2 71\n\
    !s- 72\n\
    !s- 73\n\
    -s- 1 0 lla 0 ssa 0 lta 0 sta 52 tta 0 lle 0 ine 0 ksi 49 han 52 hen 55 hin 58 hon 61 hän \
    64 hön 0 llä 0 ssä 0 ltä 0 stä 52 ttä 0 na 0 ta 0 nä 0 tä 74 a 70 n 74 ä\n\
    |s- 46 75\n\
    |sa 82 0\n\
    -s- 0 0 po\n\
    !s- 78\n\
    !s- 79\n\
    !s- 80\n\
    -s- 2 0 imma 0 impa 0 immi 0 impi 0 immä 0 impä 0 eja 81 mma 81 mpa 81 mmi 81 mpi 0 ejä \
    81 mmä 81 mpä\n\
    -s- 1 0 i 0 j\n\
    |sa 83 0\n\
    &sa 77 84\n\
    &s- 76 85\n\
    &s- 2 38\n\
    !s- 87\n\
    !s- 88\n\
    -s- 1 89 t\n\
    -s- 2 0 imma 81 mma\n\
    |sa 91 0\n\
    &s- 90 92\n\
    |sa 93 0\n\
    &sa 77 94\n\
    |sa 86 95\n\
    &s- 45 68\n\
    |sa 97 0\n\
    .s- aeiä\n\
    &s- 71 38\n\
    !s- 100\n\
    !s- 101\n\
    &s- 38 102\n\
    &s- 99 103\n\
    |sa 104 0\n\
    -s- 1 0 o 0 u\n\
    !s- 106\n\
    !s- 107\n\
    -s- 1 108 j\n\
    |sa 109 0\n\
    -s- 1 0 j\n\
    !s- 111\n\
    !s- 112\n\
    -s- 1 113 o\n\
    |sa 114 0\n\
    :s- bcdfghjklmnpqrstvwxz\n\
    =-- 3 116\n\
    |-a 117 0\n\
    &-a 115 118\n\
    &-a 110 119\n\
    &-a 105 120\n\
    &-a 98 121\n\
    &-- 38 122\n\
    |-a 123 0\n\
    &-a 96 124\n\
    &-a 35 125\n\
    &-a 17 126";

/// Its table, after the Snowball before 2.0.
pub const OLDER: &str = "\
    0 126 7 0 11 0\n\
    +sa \n\
    *sa ^aeiouyäö\n\
    .s- aeiouyäö\n\
    *sa aeiouyäö\n\
    .s- ^aeiouyäö\n\
    &s- 3 4\n\
    &s- 2 5\n\
    &s- 1 6\n\
    &s- 4 7\n\
    &s- 3 8\n\
    &s- 2 9\n\
    &s- 1 10\n\
    .s- aeiouyäönt\n\
    !s- 12\n\
    !s- 13\n\
    @s- 2\n\
    -s- 1 14 kaan 14 kään 15 sti 14 han 14 kin 14 hän 14 pa 14 ko 14 pä 14 kö\n\
    |sa 16 0\n\
    -s- 0 0 k\n\
    !s- 18\n\
    !s- 19\n\
    !s- 20\n\
    +-a ksi\n\
    --- 0 22 kse\n\
    |-a 23 0\n\
    -s- 0 0 lla 0 ssa 0 lta 0 sta 0 na 0 ta\n\
    !s- 25\n\
    !s- 26\n\
    -s- 0 0 llä 0 ssä 0 ltä 0 stä 0 nä 0 tä\n\
    !s- 28\n\
    !s- 29\n\
    -s- 0 0 lle 0 ine\n\
    !s- 31\n\
    !s- 32\n\
    --- 1 0 nsa 0 mme 0 nne 0 nsä 24 ni 21 si 27 an 33 en 30 än\n\
    |-a 34 0\n\
    .s- i\n\
    .s- aeiouäö\n\
    @s- 1\n\
    &s- 37 38\n\
    &s- 36 39\n\
    !s- 40\n\
    !s- 41\n\
    -s- 1 0 aa 0 ee 0 ii 0 oo 0 uu 0 ää 0 öö\n\
    !s- 43\n\
    !s- 44\n\
    -s- 1 45 seen 42 tten 42 siin 42 den\n\
    -s- 0 0 a\n\
    !s- 47\n\
    !s- 48\n\
    -s- 0 0 e\n\
    !s- 50\n\
    !s- 51\n\
    -s- 0 0 i\n\
    !s- 53\n\
    !s- 54\n\
    -s- 0 0 o\n\
    !s- 56\n\
    !s- 57\n\
    -s- 0 0 ä\n\
    !s- 59\n\
    !s- 60\n\
    -s- 0 0 ö\n\
    !s- 62\n\
    !s- 63\n\
    -s- 0 0 aa 0 ee 0 ie 0 ii 0 oo 0 uu 0 ää 0 öö\n\
    !s- 65\n\
    !s- 66\n\
    .s- ^\n\
    &s- 67 68\n\
    |sa 69 0\n\
    &s- 2 4\n\
    !s- 71\n\
    !s- 72\n\
    -s- 1 0 lla 0 ssa 0 lta 0 sta 52 tta 0 lle 0 ine 0 ksi 49 han 52 hen 55 hin 58 hon 61 hän \
    64 hön 0 llä 0 ssä 0 ltä 0 stä 52 ttä 0 na 0 ta 0 nä 0 tä 73 a 70 n 73 ä\n\
    |s- 46 74\n\
    |sa 81 0\n\
    -s- 0 0 po\n\
    !s- 77\n\
    !s- 78\n\
    !s- 79\n\
    -s- 2 0 imma 0 impa 0 immi 0 impi 0 immä 0 impä 0 eja 80 mma 80 mpa 80 mmi 80 mpi 0 ejä \
    80 mmä 80 mpä\n\
    -s- 1 0 i 0 j\n\
    |sa 82 0\n\
    &sa 76 83\n\
    &s- 75 84\n\
    &s- 2 38\n\
    !s- 86\n\
    !s- 87\n\
    -s- 1 88 t\n\
    -s- 2 0 imma 80 mma\n\
    |sa 90 0\n\
    &s- 89 91\n\
    |sa 92 0\n\
    &sa 76 93\n\
    |sa 85 94\n\
    &s- 45 68\n\
    |sa 96 0\n\
    .s- aeiä\n\
    &s- 4 38\n\
    !s- 99\n\
    !s- 100\n\
    &s- 38 101\n\
    &s- 98 102\n\
    |sa 103 0\n\
    -s- 1 0 o 0 u\n\
    !s- 105\n\
    !s- 106\n\
    -s- 1 107 j\n\
    |sa 108 0\n\
    -s- 1 0 j\n\
    !s- 110\n\
    !s- 111\n\
    -s- 1 112 o\n\
    |sa 113 0\n\
    :s- ^aeiouyäö\n\
    =-- 3 115\n\
    |-a 116 0\n\
    &-a 114 117\n\
    &-a 109 118\n\
    &-a 104 119\n\
    &-a 97 120\n\
    &-- 38 121\n\
    |-a 122 0\n\
    &-a 95 123\n\
    &-a 35 124\n\
    &-a 17 125";
