//! The stemmer of Hungarian.

/// Its table, after Snowball 2.2.
pub const TABLE: &str = "\
    0 52 12 0\n\
    +sa \n\
    .s- aeiouáéíóöőúüű\n\
    *sa aeiouáéíóöőúüű\n\
    -s- 0 0 szd 0 sc 0 yg 0 yl 0 yn 0 zs 0 yt 0 sz\n\
    .s- ^\n\
    |s- 3 4\n\
    &s- 2 5\n\
    &s- 1 6\n\
    .s- ^aeiouáéíóöőúüű\n\
    *sa ^aeiouáéíóöőúüű\n\
    &s- 9 1\n\
    &s- 8 10\n\
    |s- 7 11\n\
    &-- 14 19\n\
    @s- 1\n\
    -s- 0 0 ccs 0 zzs 0 ggy 0 lly 0 nny 0 tty 0 ssz 0 bb 0 cc 0 dd 0 ff 0 gg 0 jj 0 kk 0 ll 0 \
    mm 0 nn 0 pp 0 rr 0 ss 0 tt 0 vv 0 zz\n\
    !s- 15\n\
    !s- 16\n\
    =-- 4 4\n\
    &-- 17 18\n\
    --- 0 13 al 13 el\n\
    |-a 20 0\n\
    +-a a\n\
    &-- 14 22\n\
    +-a e\n\
    &-- 14 24\n\
    --- 0 23 á 25 é\n\
    |-a 26 0\n\
    &-- 14 27\n\
    --- 0 28 képpen 28 anként 28 enként 28 onként 28 képp 28 ként 28 nak 28 nek 28 val 28 vel \
    28 nál 28 nél 28 ból 28 ról 28 tól 28 ből 28 ről 28 től 28 ban 28 ben 28 kor 28 ért 28 \
    hez 28 hoz 28 höz 28 ba 28 ra 28 be 28 re 28 ig 28 ul 28 ül 28 an 28 en 28 on 28 ön 28 at \
    28 et 28 ot 28 öt 28 vá 28 vé 28 n 28 t\n\
    |-a 29 0\n\
    --- 0 23 ánként 23 án 25 én\n\
    |-a 31 0\n\
    --- 0 14 astul 23 ástul 14 estül 25 éstül 14 stul 14 stül\n\
    |-a 33 0\n\
    --- 0 13 á 13 é\n\
    |-a 35 0\n\
    --- 0 23 áéi 25 ééi 14 aké 14 eké 14 oké 23 áké 25 éké 14 öké 14 éi 14 ké 25 éé 14 é\n\
    |-a 37 0\n\
    --- 0 23 ájuk 25 éjük 14 unk 23 ánk 25 énk 14 ünk 14 juk 14 jük 14 ja 14 ad 14 ed 14 od \
    23 ád 25 éd 14 öd 14 je 14 nk 14 uk 14 ük 14 am 14 em 14 om 23 ám 25 ém 14 a 14 d 14 e 14 \
    m 14 o 23 á 25 é\n\
    |-a 39 0\n\
    --- 0 14 jeitek 14 jaitok 14 eitek 25 éitek 14 jaink 14 jeink 14 aitok 23 áitok 14 jaid \
    14 jeid 14 itek 14 jaik 14 jeik 14 aink 14 eink 23 áink 25 éink 14 jaim 14 jeim 14 aid 14 \
    eid 23 áid 25 éid 14 jai 14 jei 14 aik 14 eik 23 áik 25 éik 14 ink 14 aim 14 eim 23 áim \
    25 éim 14 id 14 ai 14 ei 23 ái 25 éi 14 ik 14 im 14 i\n\
    |-a 41 0\n\
    --- 0 14 ak 14 ek 14 ok 23 ák 25 ék 14 ök 14 k\n\
    |-a 43 0\n\
    &-a 42 44\n\
    &-a 40 45\n\
    &-a 38 46\n\
    &-a 36 47\n\
    &-a 34 48\n\
    &-a 32 49\n\
    &-a 30 50\n\
    &-a 21 51";
