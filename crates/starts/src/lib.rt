// Where each of the 128 rows starts: the list that the service display has.
#![tactic(auto)]

ghost use Rattle.std.specs.Prelude.{◌≡◌, ◌≤◌, ◌<◌, length};
ghost use Rattle.rules.specs.Words.{row_start};
ghost use Rattle.starts.specs.Listed.{listed};

// L4: the word at which each row starts. docs/ROWS.md has the same list, as the display prints it.
const STARTS: [u32; 128] = [
    17, 31, 45, 59, 73, 87, 101, 115, 129, 143, 157, 171, 185, 199, 213, 227, 241, 255, 269, 283,
    297, 311, 325, 339, 353, 367, 381, 395, 409, 423, 437, 451, 465, 479, 493, 507, 521, 535, 549,
    563, 577, 591, 605, 619, 633, 647, 661, 675, 689, 703, 717, 731, 745, 759, 773, 787, 801, 815,
    829, 843, 857, 871, 885, 899, 913, 927, 941, 955, 969, 983, 997, 1011, 1025, 1039, 1053, 1067,
    1081, 1095, 1109, 1123, 1137, 1151, 1165, 1179, 1193, 1207, 1221, 1235, 1249, 1263, 1277, 1291,
    1305, 1319, 1333, 1347, 1361, 1375, 1389, 1403, 1417, 1431, 1445, 1459, 1473, 1487, 1501, 1515,
    1529, 1543, 1557, 1571, 1585, 1599, 1613, 1627, 1641, 1655, 1669, 1683, 1697, 1711, 1725, 1739,
    1753, 1767, 1781, 1795,
];

// L4: where the rows end. It has a name of its own, since words may come to stand after the rows.
pub const END: u32 = 1809;

// L4: where the row starts, by the list. Each line is read at places that the compiler knows, so that it sees every entry and
// keeps no list in memory; the remainder is the row itself, and tells it that there is no other.
pub fn start(row: u32) -> u32
    requires { row < 128 }
    ensures { result ≡ row_start row }
{
    let list = STARTS;
    let place = row % 128;
    let from_120 = of_line(&list[120..128], 120, place, END);
    let from_112 = of_line(&list[112..120], 112, place, from_120);
    let from_104 = of_line(&list[104..112], 104, place, from_112);
    let from_96 = of_line(&list[96..104], 96, place, from_104);
    let from_88 = of_line(&list[88..96], 88, place, from_96);
    let from_80 = of_line(&list[80..88], 80, place, from_88);
    let from_72 = of_line(&list[72..80], 72, place, from_80);
    let from_64 = of_line(&list[64..72], 64, place, from_72);
    let from_56 = of_line(&list[56..64], 56, place, from_64);
    let from_48 = of_line(&list[48..56], 48, place, from_56);
    let from_40 = of_line(&list[40..48], 40, place, from_48);
    let from_32 = of_line(&list[32..40], 32, place, from_40);
    let from_24 = of_line(&list[24..32], 24, place, from_32);
    let from_16 = of_line(&list[16..24], 16, place, from_24);
    let from_8 = of_line(&list[8..16], 8, place, from_16);
    of_line(&list[0..8], 0, place, from_8)
}

// The entry for the row in a line of the list, whose first entry is for row `first`; for another row, what stands beyond it.
fn of_line(line: &[u32], first: u32, row: u32, beyond: u32) -> u32
    requires { (length line.now ≡ 8) × (first ≤ 120) }
    ensures { result ≡ listed line.now first row beyond }
{
    if row == first {
        return line[0];
    }
    if row == first + 1 {
        return line[1];
    }
    if row == first + 2 {
        return line[2];
    }
    if row == first + 3 {
        return line[3];
    }
    if row == first + 4 {
        return line[4];
    }
    if row == first + 5 {
        return line[5];
    }
    if row == first + 6 {
        return line[6];
    }
    if row == first + 7 {
        return line[7];
    }
    beyond
}
