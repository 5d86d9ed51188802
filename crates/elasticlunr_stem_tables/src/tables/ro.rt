//! The stemmer of Romanian.

/// Its table, after Snowball 2.2.
pub const TABLE: &str = "\
    9 87 15 0 19 0 28 0\n\
    .s- aeiouâîă\n\
    !s- 0\n\
    !s- 1\n\
    +-a U\n\
    &-- 2 3\n\
    +-a I\n\
    &-- 2 5\n\
    --- 0 6 i 4 u\n\
    =-- 0 7\n\
    ~-a ui 8\n\
    *sa ^aeiouâîă\n\
    *sa aeiouâîă\n\
    .s- ^aeiouâîă\n\
    &s- 11 12\n\
    &s- 0 13\n\
    &s- 10 14\n\
    &s- 12 15\n\
    &s- 11 16\n\
    &s- 0 17\n\
    &s- 10 18\n\
    .s- ^\n\
    &s- 10 0\n\
    &s- 12 21\n\
    &s- 20 22\n\
    &s- 0 14\n\
    &s- 0 20\n\
    &s- 12 25\n\
    |s- 24 26\n\
    |s- 23 27\n\
    @s- 1\n\
    +-a a\n\
    &-- 29 30\n\
    +-a e\n\
    &-- 29 32\n\
    +-a i\n\
    &-- 29 34\n\
    +sa \n\
    -s- 0 36 ab\n\
    !s- 37\n\
    !s- 38\n\
    !s- 39\n\
    &-- 40 34\n\
    &-- 29 41\n\
    +-a at\n\
    &-- 29 43\n\
    +-a aţi\n\
    &-- 29 45\n\
    --- 0 35 iilor 46 aţia 46 aţie 35 iile 44 atei 29 ului 33 elor 35 ilor 31 aua 35 iua 33 \
    ele 42 ile 35 iei 33 ea 35 ii 29 ul\n\
    |-a 47 36\n\
    &-- 60 61\n\
    +-a abil\n\
    &-- 29 50\n\
    +-a ibil\n\
    &-- 29 52\n\
    +-a iv\n\
    &-- 29 54\n\
    +-a ic\n\
    &-- 29 56\n\
    +-a it\n\
    &-- 29 58\n\
    --- 0 51 abilitate 53 ibilitate 51 abilitati 51 abilităţi 51 abilităi 57 icitate 55 \
    ivitate 57 icatori 57 icitati 55 ivitati 57 icităţi 55 ivităţi 44 aţiune 59 iţiune 44 \
    atoare 59 itoare 44 ătoare 57 icităi 55 ivităi 57 icator 57 icala 57 iciva 44 ativa 59 \
    itiva 57 icale 57 icive 44 ative 59 itive 57 icali 44 atori 59 itori 44 ători 57 icivi 44 \
    ativi 59 itivi 57 icală 57 icivă 44 ativă 59 itivă 57 ical 44 ator 59 itor 44 ător 57 \
    iciv 44 ativ 59 itiv\n\
    |-a 49 36\n\
    --- 0 63 abila 63 ibila 63 abile 63 ibile 63 itate 63 abili 63 ibili 63 atori 63 itati 63 \
    ităţi 63 abilă 63 ibilă 63 oasa 63 anta 65 ista 65 isme 68 iune 63 oase 63 ante 65 iste \
    68 iuni 63 anti 65 isti 65 işti 63 ităi 63 abil 63 ibil 63 ator 63 oasă 63 antă 65 istă \
    63 ica 63 ata 63 ita 63 uta 63 iva 63 ice 63 ate 63 ite 63 ute 63 ive 63 ici 63 osi 63 \
    ati 63 iti 63 uti 63 ivi 63 oşi 65 ism 63 ant 65 ist 63 ică 63 ată 63 ită 63 ută 63 ivă \
    63 ic 63 os 63 at 63 it 63 ut 63 iv\n\
    @s- 2\n\
    +-a ist\n\
    &-- 63 64\n\
    +-a t\n\
    --- 0 66 ţ\n\
    &-- 63 67\n\
    |-a 62 36\n\
    &-- 49 69\n\
    .s- ^aeioâîă\n\
    @s- 3\n\
    &s- 71 72\n\
    !s- 73\n\
    !s- 74\n\
    -s- 3 36 seserăţi 75 aserăţi 75 iserăţi 75 userăţi 75 âserăţi 36 seserăm 36 seseşi 36 \
    serăţi 75 aserăm 75 iserăm 75 userăm 75 âserăm 36 seseră 75 aseşi 75 iseşi 75 useşi 75 \
    âseşi 75 arăţi 75 irăţi 75 urăţi 75 ârăţi 36 sesem 36 serăm 75 ească 75 aseră 75 iseră 75 \
    useră 75 âseră 36 sese 75 eşte 75 ăşte 75 eşti 75 ăşti 36 seşi 75 eaţi 75 iaţi 75 asem 75 \
    isem 75 usem 75 âsem 75 arăm 75 irăm 75 urăm 75 ârăm 75 indu 75 ându 36 seră 75 ează 75 \
    esc 75 ăsc 75 ind 75 ând 75 are 75 ere 75 ire 75 âre 75 ase 75 ise 75 use 75 âse 75 eze \
    75 eai 75 iai 36 sei 75 ezi 75 aşi 75 işi 75 uşi 75 âşi 36 aţi 36 eţi 36 iţi 36 âţi 75 \
    eam 75 iam 75 eau 75 iau 75 ară 75 iră 75 ură 75 âră 75 ea 75 ia 36 se 75 ai 75 ui 75 âi \
    75 am 36 em 36 im 36 âm 36 ăm 75 au 75 ez\n\
    |-- 62 76\n\
    |-- 70 77\n\
    |-a 78 36\n\
    -s- 0 72 ie 72 a 72 e 72 i 72 ă\n\
    |sa 80 36\n\
    +-a u\n\
    --- 0 34 I 82 U\n\
    ~-a UI 83\n\
    &-a 81 84\n\
    &-a 79 85\n\
    &-a 48 86";
