// The table of the signs: from the nine signs of U's three vertices to the lines that U's edges cross and the vertices that are in V. All its numbers are octal, and
// a digit holds three truth values: 4 stands for the first, 2 for the second, 1 for the third.
#![tactic(auto)]

ghost use Rattle.std.specs.Prelude.{◌≡◌, [], ◌<◌, get_or};
ghost use Rattle.table.specs.Table.{digit_of, flags_in, index_of, signs_in, entry_for, number_in, in_v_in, crossed_in};

// An index has a digit for each of U0, U1 and U2, its signs on the lines 0, 1 and 2, plus being true. An entry has first a digit for the vertices that are in V, U0, U1 and
// U2, and then one for each of the edges 0, 1 and 2, the lines that it crosses. So 0o735, with the signs + + +, - + + and + - +, has the entry 0o4462: U0 is in V, edge 0
// crosses line 0, edge 1 crosses lines 0 and 1, edge 2 crosses line 1. No vertex is minus three times: where an index has the digit 0, the entry is 0.
// There is a block for each first digit of the index; in it two rows for each second digit, with the third digits 0 to 3 and 4 to 7.
static TABLE: [[[u16; 4]; 16]; 8] = [
    [
        [0o0000, 0o0000, 0o0000, 0o0000],
        [0o0000, 0o0000, 0o0000, 0o0000],
        [0o0000, 0o0000, 0o0000, 0o0000],
        [0o0000, 0o0000, 0o0000, 0o0000],
        [0o0000, 0o0000, 0o0000, 0o0000],
        [0o0000, 0o0000, 0o0000, 0o0000],
        [0o0000, 0o0000, 0o0000, 0o0000],
        [0o0000, 0o0000, 0o0000, 0o0000],
        [0o0000, 0o0000, 0o0000, 0o0000],
        [0o0000, 0o0000, 0o0000, 0o0000],
        [0o0000, 0o0000, 0o0000, 0o0000],
        [0o0000, 0o0000, 0o0000, 0o0000],
        [0o0000, 0o0000, 0o0000, 0o0000],
        [0o0000, 0o0000, 0o0000, 0o0000],
        [0o0000, 0o0000, 0o0000, 0o0000],
        [0o0000, 0o0000, 0o0000, 0o0000],
    ],
    [
        [0o0000, 0o0000, 0o0000, 0o0000],
        [0o0000, 0o0000, 0o0000, 0o0000],
        [0o0000, 0o0000, 0o0033, 0o0022],
        [0o0055, 0o0044, 0o0077, 0o1066],
        [0o0000, 0o0330, 0o0303, 0o0312],
        [0o0365, 0o0374, 0o0347, 0o1356],
        [0o0000, 0o0220, 0o0213, 0o0202],
        [0o0275, 0o0264, 0o0257, 0o1246],
        [0o0000, 0o0550, 0o0563, 0o0572],
        [0o0505, 0o0514, 0o0527, 0o1536],
        [0o0000, 0o0440, 0o0473, 0o0462],
        [0o0415, 0o0404, 0o0437, 0o1426],
        [0o0000, 0o0770, 0o0743, 0o0752],
        [0o0725, 0o0734, 0o0707, 0o1716],
        [0o0000, 0o2660, 0o2653, 0o2642],
        [0o2635, 0o2624, 0o2617, 0o3606],
    ],
    [
        [0o0000, 0o0000, 0o0000, 0o0000],
        [0o0000, 0o0000, 0o0000, 0o0000],
        [0o0000, 0o0303, 0o0330, 0o0321],
        [0o0356, 0o0347, 0o0374, 0o1365],
        [0o0000, 0o0033, 0o0000, 0o0011],
        [0o0066, 0o0077, 0o0044, 0o1055],
        [0o0000, 0o0123, 0o0110, 0o0101],
        [0o0176, 0o0167, 0o0154, 0o1145],
        [0o0000, 0o0653, 0o0660, 0o0671],
        [0o0606, 0o0617, 0o0624, 0o1635],
        [0o0000, 0o0743, 0o0770, 0o0761],
        [0o0716, 0o0707, 0o0734, 0o1725],
        [0o0000, 0o0473, 0o0440, 0o0451],
        [0o0426, 0o0437, 0o0404, 0o1415],
        [0o0000, 0o2563, 0o2550, 0o2541],
        [0o2536, 0o2527, 0o2514, 0o3505],
    ],
    [
        [0o0000, 0o0000, 0o0000, 0o0000],
        [0o0000, 0o0000, 0o0000, 0o0000],
        [0o0000, 0o0202, 0o0231, 0o0220],
        [0o0257, 0o0246, 0o0275, 0o1264],
        [0o0000, 0o0132, 0o0101, 0o0110],
        [0o0167, 0o0176, 0o0145, 0o1154],
        [0o0000, 0o0022, 0o0011, 0o0000],
        [0o0077, 0o0066, 0o0055, 0o1044],
        [0o0000, 0o0752, 0o0761, 0o0770],
        [0o0707, 0o0716, 0o0725, 0o1734],
        [0o0000, 0o0642, 0o0671, 0o0660],
        [0o0617, 0o0606, 0o0635, 0o1624],
        [0o0000, 0o0572, 0o0541, 0o0550],
        [0o0527, 0o0536, 0o0505, 0o1514],
        [0o0000, 0o2462, 0o2451, 0o2440],
        [0o2437, 0o2426, 0o2415, 0o3404],
    ],
    [
        [0o0000, 0o0000, 0o0000, 0o0000],
        [0o0000, 0o0000, 0o0000, 0o0000],
        [0o0000, 0o0505, 0o0536, 0o0527],
        [0o0550, 0o0541, 0o0572, 0o1563],
        [0o0000, 0o0635, 0o0606, 0o0617],
        [0o0660, 0o0671, 0o0642, 0o1653],
        [0o0000, 0o0725, 0o0716, 0o0707],
        [0o0770, 0o0761, 0o0752, 0o1743],
        [0o0000, 0o0055, 0o0066, 0o0077],
        [0o0000, 0o0011, 0o0022, 0o1033],
        [0o0000, 0o0145, 0o0176, 0o0167],
        [0o0110, 0o0101, 0o0132, 0o1123],
        [0o0000, 0o0275, 0o0246, 0o0257],
        [0o0220, 0o0231, 0o0202, 0o1213],
        [0o0000, 0o2365, 0o2356, 0o2347],
        [0o2330, 0o2321, 0o2312, 0o3303],
    ],
    [
        [0o0000, 0o0000, 0o0000, 0o0000],
        [0o0000, 0o0000, 0o0000, 0o0000],
        [0o0000, 0o0404, 0o0437, 0o0426],
        [0o0451, 0o0440, 0o0473, 0o1462],
        [0o0000, 0o0734, 0o0707, 0o0716],
        [0o0761, 0o0770, 0o0743, 0o1752],
        [0o0000, 0o0624, 0o0617, 0o0606],
        [0o0671, 0o0660, 0o0653, 0o1642],
        [0o0000, 0o0154, 0o0167, 0o0176],
        [0o0101, 0o0110, 0o0123, 0o1132],
        [0o0000, 0o0044, 0o0077, 0o0066],
        [0o0011, 0o0000, 0o0033, 0o1022],
        [0o0000, 0o0374, 0o0347, 0o0356],
        [0o0321, 0o0330, 0o0303, 0o1312],
        [0o0000, 0o2264, 0o2257, 0o2246],
        [0o2231, 0o2220, 0o2213, 0o3202],
    ],
    [
        [0o0000, 0o0000, 0o0000, 0o0000],
        [0o0000, 0o0000, 0o0000, 0o0000],
        [0o0000, 0o0707, 0o0734, 0o0725],
        [0o0752, 0o0743, 0o0770, 0o1761],
        [0o0000, 0o0437, 0o0404, 0o0415],
        [0o0462, 0o0473, 0o0440, 0o1451],
        [0o0000, 0o0527, 0o0514, 0o0505],
        [0o0572, 0o0563, 0o0550, 0o1541],
        [0o0000, 0o0257, 0o0264, 0o0275],
        [0o0202, 0o0213, 0o0220, 0o1231],
        [0o0000, 0o0347, 0o0374, 0o0365],
        [0o0312, 0o0303, 0o0330, 0o1321],
        [0o0000, 0o0077, 0o0044, 0o0055],
        [0o0022, 0o0033, 0o0000, 0o1011],
        [0o0000, 0o2167, 0o2154, 0o2145],
        [0o2132, 0o2123, 0o2110, 0o3101],
    ],
    [
        [0o0000, 0o0000, 0o0000, 0o0000],
        [0o0000, 0o0000, 0o0000, 0o0000],
        [0o0000, 0o4606, 0o4635, 0o4624],
        [0o4653, 0o4642, 0o4671, 0o5660],
        [0o0000, 0o4536, 0o4505, 0o4514],
        [0o4563, 0o4572, 0o4541, 0o5550],
        [0o0000, 0o4426, 0o4415, 0o4404],
        [0o4473, 0o4462, 0o4451, 0o5440],
        [0o0000, 0o4356, 0o4365, 0o4374],
        [0o4303, 0o4312, 0o4321, 0o5330],
        [0o0000, 0o4246, 0o4275, 0o4264],
        [0o4213, 0o4202, 0o4231, 0o5220],
        [0o0000, 0o4176, 0o4145, 0o4154],
        [0o4123, 0o4132, 0o4101, 0o5110],
        [0o0000, 0o6066, 0o6055, 0o6044],
        [0o6033, 0o6022, 0o6011, 0o7000],
    ],
];

// Three truth values as a digit.
pub fn digit_of(s: [bool; 3]) -> u16
    ensures { (result ≡ digit_of s) × (result < 8) }
{
    (u16::from(s[0]) << 2) | ((u16::from(s[1]) << 1) | u16::from(s[2]))
}

// The three truth values of a digit; of a longer number, those of its last one.
pub fn flags_of(d: u16) -> [bool; 3]
    ensures { result ≡ flags_in d }
{
    [d / 4 % 2 == 1, d / 2 % 2 == 1, d % 2 == 1]
}

// The index of nine signs.
pub fn index_of(signs: [[bool; 3]; 3]) -> u16
    ensures { (result ≡ index_of signs) × (result < 512) }
{
    64 * digit_of(signs[0]) + 8 * digit_of(signs[1]) + digit_of(signs[2])
}

// The entry at an index: what the rules say of the signs that it stands for.
fn entry_at(i: usize) -> u16
    requires { i < 512 }
    ensures { result ≡ entry_for (signs_in i) }
{
    TABLE[i / 64][i / 4 % 16][i % 4]
}

// What the rules say of nine signs, as the table has it.
#[tactic(auto, using(crate::proofs::Entries::at_index))]
pub fn entry_of(signs: [[bool; 3]; 3]) -> u16
    ensures { result ≡ entry_for signs }
{
    entry_at(usize::from(index_of(signs)))
}

// The vertices that are in V, by the entry.
pub fn vertices_in(entry: u16) -> [bool; 3]
    ensures { result ≡ flags_in (in_v_in entry) }
{
    flags_of(entry / 512)
}

// The lines that U's edge e crosses, a digit of the entry; none where there is no such edge.
pub fn crossed_by(entry: u16, e: usize) -> u16
    ensures { (result ≡ crossed_in entry e) × (result < 8) }
{
    match e {
        0 => entry / 64 % 8,
        1 => entry / 8 % 8,
        2 => entry % 8,
        _ => 0,
    }
}
