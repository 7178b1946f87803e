// Bursts: the randomizer, which works in a lent buffer, and the opening of a burst.
#![tactic(auto)]

ghost use Rattle.std.specs.Prelude.{◌+◌, ◌≤◌, ◌≡◌, length};
ghost use Rattle.rules.specs.Burst.{sequence_bytes, randomized, marked, blocks_fit, codeblocks, randomizer, opener};
ghost use Rattle.burst.specs.Told.{told_randomized, told_opened};

use refusal::{Refusal, Why, refuse};

// One period of the sequence.
const PERIOD: [u8; 255] = [
    255, 72, 14, 192, 154, 13, 112, 188, 142, 44, 147, 173, 167, 183, 70, 206, 90, 151, 125, 204,
    50, 162, 191, 62, 10, 16, 241, 136, 148, 205, 234, 177, 254, 144, 29, 129, 52, 26, 225, 121,
    28, 89, 39, 91, 79, 110, 141, 156, 181, 46, 251, 152, 101, 69, 126, 124, 20, 33, 227, 17, 41,
    155, 213, 99, 253, 32, 59, 2, 104, 53, 194, 242, 56, 178, 78, 182, 158, 221, 27, 57, 106, 93,
    247, 48, 202, 138, 252, 248, 40, 67, 198, 34, 83, 55, 170, 199, 250, 64, 118, 4, 208, 107, 133,
    228, 113, 100, 157, 109, 61, 186, 54, 114, 212, 187, 238, 97, 149, 21, 249, 240, 80, 135, 140,
    68, 166, 111, 85, 143, 244, 128, 236, 9, 160, 215, 11, 200, 226, 201, 58, 218, 123, 116, 108,
    229, 169, 119, 220, 195, 42, 43, 243, 224, 161, 15, 24, 137, 76, 222, 171, 31, 233, 1, 216, 19,
    65, 174, 23, 145, 197, 146, 117, 180, 246, 232, 217, 203, 82, 239, 185, 134, 84, 87, 231, 193,
    66, 30, 49, 18, 153, 189, 86, 63, 210, 3, 176, 38, 131, 92, 47, 35, 139, 36, 235, 105, 237,
    209, 179, 150, 165, 223, 115, 12, 168, 175, 207, 130, 132, 60, 98, 37, 51, 122, 172, 127, 164,
    7, 96, 77, 6, 184, 94, 71, 22, 73, 214, 211, 219, 163, 103, 45, 75, 190, 230, 25, 81, 95, 159,
    5, 8, 120, 196, 74, 102, 245, 88,
];

fn period() -> [u8; 255]
    ensures { result ≡ sequence_bytes 0 255 }
{
    PERIOD
}

// Randomizes a part of a period, from the sequence's byte `from` on. The table is lent, since a constant that a loop names is stored anew in each turn.
fn randomize_part(part: &mut [u8], table: &[u8], from: usize)
    requires part_in_bounds { from + length part.old ≤ length table.now }
    requires table_value { table.now ≡ sequence_bytes 0 (length table.now) }
    ensures { part.new ≡ randomized from part.old }
{
    for k in 0..part.len() {
        part[k] ^= table[from + k];
    }
}

// Randomizes a whole period: 15 vectors of 16 bytes, then the 15 bytes that are left. The compiler knows every place in the table, so it stores none.
fn randomize_period(part: &mut [u8], table: &[u8; 255])
    requires part_len { length part.old ≡ 255 }
    requires table_value { table.now ≡ sequence_bytes 0 255 }
    ensures { part.new ≡ randomized 0 part.old }
{
    randomize_part(&mut part[0..240], table, 0);
    randomize_part(&mut part[240..], table, 240);
}

fn first_sixteen(table: &[u8; 255]) -> [u8; 16]
    requires { table.now ≡ sequence_bytes 0 255 }
    ensures { result ≡ sequence_bytes 0 16 }
{
    let mut short = [0; 16];
    wire::put_part(&mut short, 0, table, 0, 16);
    short
}

// Randomizes three bytes or fewer, as one codeblock leaves them behind its whole periods: with no loop, the compiler knows their places and stores no table.
fn randomize_few(part: &mut [u8], table: &[u8; 255])
    requires part_len_bound { length part.old ≤ 3 }
    requires table_value { table.now ≡ sequence_bytes 0 255 }
    ensures { part.new ≡ randomized 0 part.old }
{
    if part.len() < 1 {
        return;
    }
    part[0] ^= table[0];
    if part.len() < 2 {
        return;
    }
    part[1] ^= table[1];
    if part.len() < 3 {
        return;
    }
    part[2] ^= table[2];
}

// Randomizes at most one period. Beyond three bytes the loop alone knows the places, so a copy of the table is stored, a short one where that does; were the table lent itself, each call would store it.
fn randomize_rest(part: &mut [u8], table: &[u8; 255])
    requires part_len_bound { length part.old ≤ 255 }
    requires table_value { table.now ≡ sequence_bytes 0 255 }
    ensures { part.new ≡ randomized 0 part.old }
{
    if part.len() <= 3 {
        randomize_few(part, table);
        return;
    }
    if part.len() <= 16 {
        let short = first_sixteen(table);
        randomize_part(part, &short, 0);
    } else {
        let whole = *table;
        randomize_part(part, &whole, 0);
    }
}

// Randomizes a buffer of any length: period after period, then what is left.
fn randomize_all(buf: &mut [u8])
    ensures { buf.new ≡ randomized 0 buf.old }
{
    let table = period();
    let mut at = 0;
    while 255 <= buf.len() - at {
        let end = at + 255;
        randomize_period(&mut buf[at..end], &table);
        at = end;
    }
    randomize_rest(&mut buf[at..], &table);
}

// Randomizes a buffer, or says why it was left as it was. Randomizing it again gives its bytes back.
pub fn randomize(buf: &mut [u8]) -> Result<(), Refusal>
    ensures { told_randomized result buf.new ≡ randomizer buf.old }
{
    if 65536 < buf.len() {
        return refuse(Why::Large, 65536);
    }
    randomize_all(buf);
    Ok(())
}

// Whether a buffer begins with the marker.
#[tactic(auto, unfolding(rules::specs::Bytes::word))]
fn is_marked(buf: &[u8]) -> bool
    ensures { result ≡ marked buf.now }
{
    8 <= buf.len() && wire::word_at(buf, 0) == 0x034776C7 && wire::word_at(buf, 4) == 0x272895B0
}

// How many codeblocks stand behind the marker of a burst of n bytes.
fn blocks_in(n: usize) -> usize
    ensures { result ≡ codeblocks n }
{
    n.saturating_sub(8) / 768
}

// Whether they are 1 to 80 whole ones.
fn blocks_fit(n: usize) -> bool
    ensures { result ≡ blocks_fit n }
{
    let blocks = blocks_in(n);
    1 <= blocks && blocks <= 80 && (n - 8) % 768 == 0
}

// Opens a burst: its codeblocks are randomized, the sequence running on from one to the next. How many they are, or why none were opened.
pub fn open_burst(buf: &mut [u8]) -> Result<usize, Refusal>
    ensures { told_opened result buf.new ≡ opener buf.old }
{
    let n = buf.len();
    let begun = is_marked(buf);
    let whole = blocks_fit(n);
    if 65536 < n {
        return refuse(Why::Large, 65536);
    }
    if !begun {
        return refuse(Why::Marker, 0);
    }
    if !whole {
        return refuse(Why::Blocks, n);
    }
    randomize_all(&mut buf[8..]);
    Ok(blocks_in(n))
}
