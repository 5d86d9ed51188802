//! The stemmer of French.

/// Its table, after Snowball 2.2.
pub const TABLE: &str = "\
    31 166 36 0 40 0 48 0\n\
    .s- aeiouyàâèéêëîïôùû\n\
    !s- 0\n\
    !s- 1\n\
    +-a U\n\
    &-- 2 3\n\
    +-a I\n\
    &-- 2 5\n\
    --- 0 6 i 4 u\n\
    =-- 0 7\n\
    +sa \n\
    |-a 8 9\n\
    .s- aeoàâèéêëîïôùû\n\
    .s- ^aeiouyàâèéêëîïôùû\n\
    .s- iu\n\
    &s- 12 13\n\
    |s- 11 14\n\
    +-a Y\n\
    --- 0 16 y\n\
    =-- 15 17\n\
    |-a 18 9\n\
    &-- 2 16\n\
    +-a He\n\
    +-a Hi\n\
    +-a qU\n\
    --- 0 23 qu 20 y 21 ë 22 ï\n\
    |-a 24 9\n\
    &-a 19 25\n\
    &-a 10 26\n\
    ~-a uiyëï 27\n\
    =-- 13 17\n\
    |-a 29 9\n\
    &-a 28 30\n\
    *sa ^aeiouyàâèéêëîïôùû\n\
    *sa aeiouyàâèéêëîïôùû\n\
    &s- 33 12\n\
    &s- 0 34\n\
    &s- 32 35\n\
    &s- 12 36\n\
    &s- 33 37\n\
    &s- 0 38\n\
    &s- 32 39\n\
    .s- ^\n\
    &s- 0 41\n\
    &s- 0 42\n\
    -s- 0 9 loc 9 rap 9 pat\n\
    &s- 32 0\n\
    &s- 41 45\n\
    |s- 44 46\n\
    |s- 43 47\n\
    @s- 2\n\
    |-a 53 9\n\
    +-a i\n\
    +-a c\n\
    --- 0 51 Y 52 ç\n\
    &-- 49 50\n\
    +-a iqU\n\
    |-a 49 55\n\
    --- 0 56 ic\n\
    |-a 57 9\n\
    &-- 49 58\n\
    &-- 59 50\n\
    +-a log\n\
    &-- 49 61\n\
    &-- 62 50\n\
    +-a u\n\
    &-- 49 64\n\
    &-- 65 50\n\
    +-a ent\n\
    &-- 49 67\n\
    &-- 68 50\n\
    @s- 3\n\
    -s- 0 49 at\n\
    |sa 71 9\n\
    &s- 49 72\n\
    @s- 1\n\
    +-a eux\n\
    &-- 74 75\n\
    |-- 49 76\n\
    &-- 70 51\n\
    --- 0 49 iqU 49 abl 78 Ièr 78 ièr 77 eus 73 iv\n\
    |-a 79 9\n\
    &-- 70 80\n\
    &-- 81 50\n\
    +-a abl\n\
    |-a 49 83\n\
    --- 0 84 abil 56 ic 49 iv\n\
    |-a 85 9\n\
    &-- 49 86\n\
    &-- 87 50\n\
    --- 0 59 at\n\
    |-a 89 9\n\
    &-- 49 90\n\
    &-- 91 50\n\
    +-a eau\n\
    &-a 93 50\n\
    +-a al\n\
    &-- 74 95\n\
    &-- 96 50\n\
    &-- 77 50\n\
    !s- 12\n\
    !s- 99\n\
    &s- 74 100\n\
    &-- 101 50\n\
    +-a ant\n\
    |-a 114 130\n\
    .s- ^Haeiouyàâèéêëîïôùû\n\
    &s- 105 70\n\
    !s- 106\n\
    !s- 107\n\
    -s- 3 108 issantes 108 issaIent 108 issante 108 issions 108 issants 108 iraIent 108 \
    issais 108 irions 108 issons 108 issait 108 issant 108 issent 108 issiez 108 isses 108 \
    irais 108 irons 108 irait 108 irent 108 iront 108 iriez 108 issez 108 isse 108 irai 108 \
    iras 108 îmes 108 îtes 108 irez 108 ira 108 ies 108 ie 108 ir 108 is 108 it 108 ît 108 i\n\
    -s- 3 9 e\n\
    |sa 110 9\n\
    -s- 3 111 assions 9 eraIent 9 erions 111 assent 111 assiez 111 asses 111 antes 9 erais 9 \
    erons 9 erait 111 aIent 9 èrent 9 eront 9 eriez 111 asse 111 ante 9 erai 9 eras 111 âmes \
    111 âtes 49 ions 111 ants 9 erez 9 era 9 ées 111 ais 111 ait 111 ant 9 iez 9 ée 111 ai 9 \
    er 111 as 9 és 111 ât 9 ez 111 a 9 é\n\
    |s- 109 112\n\
    &-- 113 50\n\
    -s- 0 9 Hi\n\
    !s- 115\n\
    !s- 116\n\
    .s- ^aiousè\n\
    !s- 118\n\
    !s- 119\n\
    |s- 117 120\n\
    -s- 0 121 s\n\
    |sa 122 9\n\
    -s- 3 9 s 9 t\n\
    !s- 124\n\
    !s- 125\n\
    &s- 49 126\n\
    --- 3 51 Ière 51 ière 127 ion 51 Ier 51 ier 9 e\n\
    |-a 128 9\n\
    &-a 123 129\n\
    &-a 103 104\n\
    &-- 70 131\n\
    &-a 67 104\n\
    &-- 70 133\n\
    &s- 0 70\n\
    !s- 135\n\
    !s- 136\n\
    &-- 137 104\n\
    --- 0 102 issements 102 issement 60 atrices 60 atrice 63 logies 66 usions 60 ations 66 \
    utions 60 ateurs 82 ements 132 amment 134 emment 63 logie 66 usion 60 ation 66 ution 60 \
    ateur 54 iqUes 54 ances 69 ences 54 ables 54 ismes 98 euses 54 istes 138 ments 82 ement \
    54 iqUe 54 ance 69 ence 54 able 54 isme 98 euse 54 iste 92 ives 88 ités 138 ment 94 eaux \
    92 ive 92 ifs 97 aux 54 eux 88 ité 92 if\n\
    |-a 139 104\n\
    -s- 0 9 eill 9 ell 9 enn 9 onn 9 ett\n\
    !s- 141\n\
    !s- 142\n\
    &s- 143 41\n\
    |sa 144 9\n\
    &s- 12 32\n\
    +-a e\n\
    --- 0 147 è 147 é\n\
    =-- 146 148\n\
    |-a 149 9\n\
    .s- ^ei\n\
    -s- 0 9 H\n\
    =-- 151 152\n\
    |-a 153 9\n\
    +-a ë\n\
    +-a ï\n\
    +-a y\n\
    --- 0 155 He 156 Hi 51 I 64 U 157 Y\n\
    |-a 158 9\n\
    &-a 154 159\n\
    ~-a UIYH 160\n\
    |sa 152 9\n\
    &-a 161 162\n\
    &-a 150 163\n\
    &-a 145 164\n\
    &-a 140 165";

/// Its table, after the Snowball before 2.0.
pub const OLDER: &str = "\
    29 153 34 0 38 0 46 0\n\
    .s- aeiouyàâèéêëîïôùû\n\
    !s- 0\n\
    !s- 1\n\
    +-a U\n\
    &-- 2 3\n\
    +-a I\n\
    &-- 2 5\n\
    --- 0 6 i 4 u\n\
    =-- 0 7\n\
    +sa \n\
    |-a 8 9\n\
    .s- aeoàâèéêëîïôùû\n\
    .s- ^aeiouyàâèéêëîïôùû\n\
    .s- iu\n\
    &s- 12 13\n\
    |s- 11 14\n\
    +-a Y\n\
    --- 0 16 y\n\
    =-- 15 17\n\
    |-a 18 9\n\
    &-- 2 16\n\
    +-a qU\n\
    --- 0 21 qu 20 y\n\
    |-a 22 9\n\
    &-a 19 23\n\
    &-a 10 24\n\
    ~-a uiyëï 25\n\
    =-- 13 17\n\
    |-a 27 9\n\
    &-a 26 28\n\
    *sa ^aeiouyàâèéêëîïôùû\n\
    *sa aeiouyàâèéêëîïôùû\n\
    &s- 31 12\n\
    &s- 0 32\n\
    &s- 30 33\n\
    &s- 12 34\n\
    &s- 31 35\n\
    &s- 0 36\n\
    &s- 30 37\n\
    .s- ^\n\
    &s- 0 39\n\
    &s- 0 40\n\
    -s- 0 9 loc 9 rap 9 pat\n\
    &s- 30 0\n\
    &s- 39 43\n\
    |s- 42 44\n\
    |s- 41 45\n\
    @s- 2\n\
    |-a 51 9\n\
    +-a i\n\
    +-a c\n\
    --- 0 49 Y 50 ç\n\
    &-- 47 48\n\
    +-a iqU\n\
    |-a 47 53\n\
    --- 0 54 ic\n\
    |-a 55 9\n\
    &-- 47 56\n\
    &-- 57 48\n\
    +-a log\n\
    &-- 47 59\n\
    &-- 60 48\n\
    +-a u\n\
    &-- 47 62\n\
    &-- 63 48\n\
    +-a ent\n\
    &-- 47 65\n\
    &-- 66 48\n\
    @s- 3\n\
    -s- 0 47 at\n\
    |sa 69 9\n\
    &s- 47 70\n\
    @s- 1\n\
    +-a eux\n\
    &-- 72 73\n\
    |-- 47 74\n\
    &-- 68 49\n\
    --- 0 47 iqU 47 abl 76 Ièr 76 ièr 75 eus 71 iv\n\
    |-a 77 9\n\
    &-- 68 78\n\
    &-- 79 48\n\
    +-a abl\n\
    |-a 47 81\n\
    --- 0 82 abil 54 ic 47 iv\n\
    |-a 83 9\n\
    &-- 47 84\n\
    &-- 85 48\n\
    --- 0 57 at\n\
    |-a 87 9\n\
    &-- 47 88\n\
    &-- 89 48\n\
    +-a eau\n\
    &-a 91 48\n\
    +-a al\n\
    &-- 72 93\n\
    &-- 94 48\n\
    &-- 75 48\n\
    !s- 12\n\
    !s- 97\n\
    &s- 72 98\n\
    &-- 99 48\n\
    +-a ant\n\
    |-a 111 126\n\
    &s- 12 68\n\
    !s- 103\n\
    !s- 104\n\
    -s- 3 105 issantes 105 issaIent 105 issante 105 issions 105 issants 105 iraIent 105 \
    issais 105 irions 105 issons 105 issait 105 issant 105 issent 105 issiez 105 isses 105 \
    irais 105 irons 105 irait 105 irent 105 iront 105 iriez 105 issez 105 isse 105 irai 105 \
    iras 105 îmes 105 îtes 105 irez 105 ira 105 ies 105 ie 105 ir 105 is 105 it 105 ît 105 i\n\
    -s- 3 9 e\n\
    |sa 107 9\n\
    -s- 3 108 assions 9 eraIent 9 erions 108 assent 108 assiez 108 asses 108 antes 9 erais 9 \
    erons 9 erait 108 aIent 9 èrent 9 eront 9 eriez 108 asse 108 ante 9 erai 9 eras 108 âmes \
    108 âtes 47 ions 108 ants 9 erez 9 era 9 ées 108 ais 108 ait 108 ant 9 iez 9 ée 108 ai 9 \
    er 108 as 9 és 108 ât 9 ez 108 a 9 é\n\
    |s- 106 109\n\
    &-- 110 48\n\
    .s- ^aiousè\n\
    !s- 112\n\
    !s- 113\n\
    -s- 0 114 s\n\
    |sa 115 9\n\
    -s- 3 9 s 9 t\n\
    !s- 117\n\
    !s- 118\n\
    &s- 47 119\n\
    -s- 3 9 gu\n\
    !s- 121\n\
    !s- 122\n\
    --- 3 49 Ière 49 ière 120 ion 49 Ier 49 ier 9 e 123 ë\n\
    |-a 124 9\n\
    &-a 116 125\n\
    &-a 101 102\n\
    &-- 68 127\n\
    &-a 65 102\n\
    &-- 68 129\n\
    &s- 0 68\n\
    !s- 131\n\
    !s- 132\n\
    &-- 133 102\n\
    --- 0 100 issements 100 issement 58 atrices 58 atrice 61 logies 64 usions 58 ations 64 \
    utions 58 ateurs 80 ements 128 amment 130 emment 61 logie 64 usion 58 ation 64 ution 58 \
    ateur 52 iqUes 52 ances 67 ences 52 ables 52 ismes 96 euses 52 istes 134 ments 80 ement \
    52 iqUe 52 ance 67 ence 52 able 52 isme 96 euse 52 iste 90 ives 86 ités 134 ment 92 eaux \
    90 ive 90 ifs 95 aux 52 eux 86 ité 90 if\n\
    |-a 135 102\n\
    -s- 0 9 eill 9 ell 9 enn 9 onn 9 ett\n\
    !s- 137\n\
    !s- 138\n\
    &s- 139 39\n\
    |sa 140 9\n\
    &s- 12 30\n\
    +-a e\n\
    --- 0 143 è 143 é\n\
    =-- 142 144\n\
    |-a 145 9\n\
    +-a y\n\
    --- 0 49 I 62 U 147 Y\n\
    ~-a UIY 148\n\
    &-a 149 9\n\
    &-a 146 150\n\
    &-a 141 151\n\
    &-a 136 152";
