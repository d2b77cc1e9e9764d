// The test pattern, line k from 0. All arithmetic is on whole numbers; / is the quotient without its rest, % the rest.
//
// New tables come with line T, counted from 1; where T is 0 none come. r is 1 where T is not 0 and k + 1 >= T, else 0.
//
// Sector 1 (DOC), the byte at place p, places from 1 with the ID included: 3 the scan mode, one of 00, 0F, FF, 5A by k % 4;
// 7-8 set line 100; 9-10 reset line 2,391; 11-12 the scan count (100 + k) % 10,000 as BCD; 20-27 the date; 28-29 the
// calibration table ID 2,101 + r and 30-31 the MANAM revision 731 + r, high byte first; 67 the scanner select, one of FF, F0,
// 00, 0F, A5 by k % 5; 193 and 195 zero, 194 the segment k / 8 % 25, 196 the repeat k % 8; from 197 on the segment of each
// block; zeros behind the blocks; and (37 p + 11 k) % 256 at every other place.
//
// Date: line k is at t = 60 k hundredths of a second from 2005-01-01 00:00:00.00; a month has 28 days here.
//
// Blocks b = 1 mapping, 2 orbit, 3 MANAM, 4 calibration-1, 5 calibration-2 (not in format 2): byte q, from 1, is
// ((q q + 97 b q) / 5) % 256 of 1 and 2, and ((q q + 97 b q) / 5 + 85 r) % 256 of 3, 4 and 5: new tables differ at every byte.
//
// Pixel j, from 0, of sector s, w bits wide: (j (2 s + k + 1) + j / 3 + 5 s + k) % 2^w.
ghost use Rattle.std.specs.Prelude.{◌≤◌, ◌<◌};

use refusals::Refusal;

// Two decimal digits as a byte.
fn bcd(v: u64) -> u8 {
    (v / 10 % 10 * 16 + v % 10) as u8
}

// The i-th byte of the date of line k.
fn date(k: u64, i: usize) -> u8
    requires { k < 1000000 }
{
    let t = 60 * k;
    let d = t / 8640000;
    let year = 2005 + d / 336;
    match i {
        0 => bcd(year / 100),
        1 => bcd(year % 100),
        2 => bcd(1 + d / 28 % 12),
        3 => bcd(1 + d % 28),
        4 => bcd(t / 360000 % 24),
        5 => bcd(t / 6000 % 60),
        6 => bcd(t / 100 % 60),
        _ => bcd(t % 100),
    }
}

fn mode(k: u64) -> u8 {
    match k % 4 {
        0 => 0x00,
        1 => 0x0f,
        2 => 0xff,
        _ => 0x5a,
    }
}

fn mirror(k: u64) -> u8 {
    match k % 5 {
        0 => 0xff,
        1 => 0xf0,
        2 => 0x00,
        3 => 0x0f,
        _ => 0xa5,
    }
}

// A product that fits.
fn times(a: usize, b: usize) -> usize
    requires { (a ≤ 100000) × (b ≤ 100000) }
    ensures { result ≤ 10000000000 }
{
    a * b
}

// Byte q of block b; r is 0 for mapping and orbit.
fn block(b: usize, q: usize, r: usize) -> u8
    requires { (b ≤ 5) × (q ≤ 100000) × (r ≤ 1) }
{
    (((times(q, q) + times(97 * b, q)) / 5 + 85 * r) % 256) as u8
}

// Where a segment begins.
fn size_times(s: usize, size: usize) -> usize
    requires { (s ≤ 24) × (size ≤ 1024) }
    ensures { result ≤ 24576 }
{
    s * size
}

// The byte at place p of a block b that begins at place from and has segments of size bytes.
fn segment(b: usize, p: usize, from: usize, size: usize, k: u64, r: usize) -> u8
    requires { (b ≤ 5) × (from ≤ p) × (p ≤ 2293) × (size ≤ 1024) × (r ≤ 1) }
{
    let s = (k / 8 % 25) as usize;
    block(b, size_times(s, size) + (p - from) + 1, r)
}

// From place 197 on: the blocks, and zeros behind them. New tables leave mapping and orbit as they are.
fn blocks(format: u8, k: u64, r: usize, p: usize) -> u8
    requires { (r ≤ 1) × (197 ≤ p) × (p ≤ 2293) }
{
    if p < 297 {
        return segment(1, p, 197, 100, k, 0);
    }
    if p < 425 {
        return segment(2, p, 297, 128, k, 0);
    }
    if p < 835 {
        return segment(3, p, 425, 410, k, r);
    }
    if p < 1091 {
        return segment(4, p, 835, 256, k, r);
    }
    if p < 2115 {
        if format != 2 {
            return segment(5, p, 1091, 1024, k, r);
        }
    }
    0
}

// Places 28 to 31: the numbers of the tables, high byte first.
fn revisions(r: usize, p: usize) -> u8
    requires { r ≤ 1 }
{
    match p {
        28 => ((2101 + r) / 256) as u8,
        29 => ((2101 + r) % 256) as u8,
        30 => ((731 + r) / 256) as u8,
        _ => ((731 + r) % 256) as u8,
    }
}

// Places 3 to 196, as far as the pattern names them.
fn status(k: u64, r: usize, p: usize) -> u8
    requires { (k < 1000000) × (r ≤ 1) × (p ≤ 2293) }
{
    match p {
        3 => mode(k),
        7 => 0x01,
        8 => 0x00,
        9 => 0x23,
        10 => 0x91,
        11 => bcd((100 + k) % 10000 / 100),
        12 => bcd((100 + k) % 100),
        20..=27 => date(k, p - 20),
        28..=31 => revisions(r, p),
        67 => mirror(k),
        193 => 0,
        194 => (k / 8 % 25) as u8,
        195 => 0,
        196 => (k % 8) as u8,
        _ => ((37 * p + 11 * (k % 256) as usize) % 256) as u8,
    }
}

// The byte at place p of DOC.
fn doc(format: u8, k: u64, r: usize, p: usize) -> u8
    requires { (k < 1000000) × (r ≤ 1) × (p ≤ 2293) }
{
    if p < 197 {
        status(k, r, p)
    } else {
        blocks(format, k, r, p)
    }
}

// A pixel, below values.
fn pixel(s: usize, k: usize, j: usize, values: usize) -> usize
    requires { (s ≤ 12) × (k < 1024) × (j < 10000) × (0 < values) }
    ensures { result < values }
{
    (times(j, 2 * s + k + 1) + j / 3 + 5 * s + k) % values
}

fn put_doc(format: u8, k: u64, r: usize, line: &mut [u8]) -> Result<(), Refusal>
    requires { (k < 1000000) × (r ≤ 1) }
{
    let mut bytes = [0; 2291];
    for (i, byte) in bytes.iter_mut().enumerate() {
        *byte = doc(format, k, r, i + 3);
    }
    sector_writer::write::put_data(format, line, 1, &bytes)
}

// The pixels of a sector of at most eight bits, count of them.
fn put_row(
    format: u8,
    k: usize,
    s: u8,
    count: usize,
    values: usize,
    line: &mut [u8],
) -> Result<(), Refusal>
    requires { (k < 1024) × (s ≤ 12) × (count ≤ 9164) × (0 < values) × (values ≤ 256) }
{
    let mut row = [0; 9164];
    for (j, value) in row[..count].iter_mut().enumerate() {
        *value = pixel(s as usize, k, j, values) as u8;
    }
    sector_writer::write::put_pixels(format, line, s, &row)
}

// The pixels of IR4.
fn put_wide(format: u8, k: usize, line: &mut [u8]) -> Result<(), Refusal>
    requires { k < 1024 }
{
    let mut row = [0; 2291];
    for (j, value) in row.iter_mut().enumerate() {
        *value = pixel(12, k, j, 1024) as u16;
    }
    sector_writer::write::put_pixels_wide(format, line, 12, &row)
}

// The pixels of sector s, 2 to 11.
fn put_sector(format: u8, k: usize, s: u8, line: &mut [u8]) -> Result<(), Refusal>
    requires { (k < 1024) × (s ≤ 12) }
{
    match s {
        2..=4 => put_row(format, k, s, 2291, 256, line),
        5..=8 => put_row(format, k, s, 9164, 64, line),
        _ => put_row(format, k, s, 2291, 4, line),
    }
}

// r of line k, with new tables from line t on, or with none where t is 0.
fn since(k: u64, t: u64) -> usize
    requires { k < 1000000 }
    ensures { result ≤ 1 }
{
    usize::from(t > 0 && t <= k + 1)
}

// Inner. Line k, all twelve sectors, with new tables from line t on. Pixels go by k modulo 1,024: none is wider than ten bits.
pub fn fill(format: u8, k: u64, t: u64, line: &mut [u8]) -> Result<(), Refusal>
    requires { k < 1000000 }
{
    let small = (k % 1024) as usize;
    put_doc(format, k, since(k, t), line)?;
    for s in 2..12 {
        put_sector(format, small, s, line)?;
    }
    put_wide(format, small, line)
}
