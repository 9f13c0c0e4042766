//! The worked frames, each with what the plant replies, by panels' sessions on new bench plants.

use super::sessions::Script;

pub(super) const FRAMES: &[Script] = &[
    // Interrogate 5, which is parked.
    (
        b"> 0 10020100000504F61003\n",
        0,
        "< 0 10061002030007057F056D1003\n",
    ),
    // Connect 5 to 3, and interrogate it before and after. HEX may have spaces.
    (
        b"> 0 10020100000504F61003\n> 0 10020200000503 05F11003\n> 0 10020100000504F61003\n",
        0,
        "< 0 10061002030007057F056D1003\n\
         < 0 10061002040000050305EF1003\n\
         < 0 10061002030000050305F01003\n",
    ),
    // Connect 16 to 3: the destination is doubled. HEX may be in lower case.
    (
        b"> 0 1002020000101003 05e61003\n",
        0,
        "< 0 1006100204000010100305E41003\n",
    ),
    // Interrogate 11 of matrix 14, which the plant lacks: the check byte is doubled.
    (
        b"> 0 100201E0000B0410101003\n",
        0,
        "< 0 1006100203E0070B7F05871003\n",
    ),
    // Connect 32, which is out of range, to 3, and 5 to 32.
    (
        b"> 0 10020200002003 05D61003\n> 0 10020200000520 05D41003\n",
        0,
        "< 0 10061002030007207F05521003\n< 0 10061002030007057F056D1003\n",
    ),
    // Connect 5 to 3, and park it.
    (
        b"> 0 10020200000503 05F11003\n> 0 1002020007057F056E1003\n> 0 10020100000504F61003\n",
        0,
        "< 0 10061002040000050305EF1003\n\
         < 0 10061002040007057F056C1003\n\
         < 0 10061002030007057F056D1003\n",
    ),
    // Connect 5 to 3, and ask for a dump: one page of 32 destinations. The plant has no level 1.
    (
        b"> 0 10020200000503 05F11003\n> 0 1002150002E91003\n> 0 1002150102E81003\n",
        0,
        "< 0 10061002040000050305EF1003\n\
         < 0 10061002170020000003FF03FF03FF03FF03FF000303FF03FF03FF03FF03FF03FF03FF03FF03FF03FF03FF03FF03FF03FF03FF03FF03FF03FF03FF03FF03FF03FF03FF03FF03FF03FF45431003\n\
         < 0 1006\n",
    ),
];
