// The bytes of a packet before its raster, written into a lent buffer.
#![tactic(auto)]

ghost use Rattle.std.specs.Prelude.{◌+◌, ◌*◌, ◌^◌, ◌<◌, ◌≤◌, ◌≡◌, ◌∷◌, [], ◌++◌, length, drop, Some};
ghost use Rattle.std.proofs.lemmas.List.Edits.{sets};
ghost use Rattle.std.specs.Int.Signed.{mag};
ghost use Rattle.format.specs.Numbers.{bytes, twos};
ghost use Rattle.format.specs.Measures.{whole_pixels};
ghost use Rattle.format.specs.Pieces.{black_bit, short, extended, long};
ghost use Rattle.escapement.specs.Count.{whole_of, scaled_of};
ghost use Rattle.measures.specs.Said.{said};
ghost use Rattle.pick.specs.Picks.{Judged, IsPicked, Picks};
ghost use Rattle.pick.specs.declared.Picked.TheVariants.{Short, Extended, Long};
ghost use Rattle.head.specs.Head.{head_for, head_length, numbers, total, Fit, narrow_row, narrow_values, long_values, ScaledBelow, Ready};

use escapement::Pixels;
use measures::Measures;
use pick::Picked;

// A number, and in how many bytes it is written.
#[derive(Clone, Copy)]
struct Field {
    width: usize,
    value: u64,
}

// n in k bytes from at on, the first most significant; it answers the place behind.
fn put_number(buf: &mut [u8], at: usize, k: usize, n: u64) -> usize
    requires { (at + k ≤ length buf.old) × (k ≤ 4) × (n < 256 ^ k) }
    ensures { (result ≡ at + k) × (buf.new ≡ sets buf.old at (bytes k n)) }
{
    let e = n.to_be_bytes();
    buf[at..at + k].copy_from_slice(&e[8 - k..]);
    at + k
}

// Nine numbers, each in its own number of bytes, from at on.
fn put_fields(buf: &mut [u8], at: usize, fields: [Field; 9]) -> usize
    requires { (at + total fields ≤ length buf.old) × Fit fields }
    ensures { (result ≡ at + total fields) × (buf.new ≡ sets buf.old at (numbers fields)) }
{
    let mut to = at;
    for x in fields {
        to = put_number(buf, to, x.width, x.value);
    }
    to
}

// The flag and nine numbers from the buffer's start on.
fn put_head(buf: &mut [u8], flag: u64, fields: [Field; 9]) -> usize
    requires { (1 + total fields ≤ length buf.old) × (flag < 256) × Fit fields }
    ensures { (result ≡ 1 + total fields) × (buf.new ≡ (flag ∷ numbers fields) ++ drop (1 + total fields) buf.old) }
{
    buf[0] = flag as u8;
    put_fields(buf, 1, fields)
}

// The same for a short packet, which nearly every one is: its bytes at once.
// Kept: nine numbers and not the fields, whose loop would cost the packing of a small bitmap a tenth of its time.
fn put_short(
    buf: &mut [u8],
    flag: u64,
    size: u64,
    code: u64,
    tfm: u64,
    dm: u64,
    w: u64,
    h: u64,
    x: u64,
    y: u64,
) -> usize
    requires { (11 ≤ length buf.old) × (flag < 256) × Fit (narrow_row 1 size code tfm dm w h x y) }
    ensures { (result ≡ 11) × (buf.new ≡ (flag ∷ numbers (narrow_row 1 size code tfm dm w h x y)) ++ drop 11 buf.old) }
{
    buf[..11].copy_from_slice(&[
        flag as u8,
        size as u8,
        code as u8,
        (tfm / 65536) as u8,
        (tfm % 65536 / 256) as u8,
        (tfm % 256) as u8,
        dm as u8,
        w as u8,
        h as u8,
        x as u8,
        y as u8,
    ]);
    11
}

// z in two's complement, in k bytes.
fn twos(z: i64, k: usize) -> u64
    requires { (k ≤ 4) × (mag z < 256 ^ k) }
    ensures { result ≡ twos k z }
{
    let top = fields::values_of(k);
    let n = sign::magnitude(z);
    if z < 0 { top - 1 - n } else { n }
}

// The flag: f, the black bit, and the form's bits, in which the upper part of the length stands too.
// (Kept, here and below: f and the black bit are of the raster, the measures of the caller, the form of `pick`: no struct has them all.)
fn flag_of(f: usize, black: bool, form: u64) -> u64
    requires { (f ≤ 14) × (form < 8) }
    ensures { (result ≡ 16 * f + black_bit black + form) × (result < 256) }
{
    16 * f as u64 + if black { 8 } else { 0 } + form
}

// The fields of a short packet, of k = 1, or of an extended one, of k = 2, with the offsets x and y; dy has no bytes.
fn narrow_values(m: Measures, k: usize, dm: Pixels, x: i64, y: i64, length: u64) -> [Field; 9]
    requires { (k ≤ 4) × (mag x < 256 ^ k) × (mag y < 256 ^ k) × (x ≡ m.hoff) × (y ≡ m.voff) }
    ensures { result ≡ narrow_values k (said m) (whole_of dm) length }
{
    let code = sign::magnitude(m.code);
    let tfm = sign::magnitude(m.tfm);
    let w = sign::magnitude(m.w);
    let h = sign::magnitude(m.h);
    let hoff = twos(x, k);
    let voff = twos(y, k);
    [
        Field {
            width: k,
            value: length,
        },
        Field {
            width: 1,
            value: code,
        },
        Field {
            width: 3,
            value: tfm,
        },
        Field {
            width: k,
            value: u64::from(dm.0),
        },
        Field { width: 0, value: 0 },
        Field { width: k, value: w },
        Field { width: k, value: h },
        Field {
            width: k,
            value: hoff,
        },
        Field {
            width: k,
            value: voff,
        },
    ]
}

// The fields of a long packet, with the offsets x and y.
fn long_values(m: Measures, x: i64, y: i64, length: u64) -> [Field; 9]
    requires { (mag m.tfm < 4294967296) × ScaledBelow 4294967296 (scaled_of m.dx) × ScaledBelow 4294967296 (scaled_of m.dy) × (mag x < 4294967296) × (mag y < 4294967296) × (x ≡ m.hoff) × (y ≡ m.voff) }
    ensures { result ≡ long_values (said m) length }
{
    let code = sign::magnitude(m.code);
    let w = sign::magnitude(m.w);
    let h = sign::magnitude(m.h);
    let tfm = twos(m.tfm, 4);
    let across = twos(m.dx.0, 4);
    let down = twos(m.dy.0, 4);
    let hoff = twos(x, 4);
    let voff = twos(y, 4);
    [
        Field {
            width: 4,
            value: length,
        },
        Field {
            width: 4,
            value: code,
        },
        Field {
            width: 4,
            value: tfm,
        },
        Field {
            width: 4,
            value: across,
        },
        Field {
            width: 4,
            value: down,
        },
        Field { width: 4, value: w },
        Field { width: 4, value: h },
        Field {
            width: 4,
            value: hoff,
        },
        Field {
            width: 4,
            value: voff,
        },
    ]
}

// The head of a short packet.
// Kept: it and the next share narrow_values and flag_of; one function of both would only choose between put_short and put_head.
fn write_short(
    buf: &mut [u8],
    f: usize,
    black: bool,
    m: Measures,
    dm: Pixels,
    x: i8,
    y: i8,
    n: usize,
) -> usize
    requires { Ready buf.old f (said m) n short × (whole_of dm ≡ whole_pixels (scaled_of m.dx)) × (x ≡ m.hoff) × (y ≡ m.voff) }
    ensures { (result ≡ 11) × (buf.new ≡ head_for f black (said m) n (Some (Short dm x y)) ++ drop 11 buf.old) }
{
    let length = 8 + n as u64;
    let vs = narrow_values(m, 1, dm, i64::from(x), i64::from(y), length % 256);
    let flag = flag_of(f, black, length / 256);
    put_short(
        buf,
        flag,
        vs[0].value,
        vs[1].value,
        vs[2].value,
        vs[3].value,
        vs[5].value,
        vs[6].value,
        vs[7].value,
        vs[8].value,
    )
}

// The head of an extended packet.
fn write_extended(
    buf: &mut [u8],
    f: usize,
    black: bool,
    m: Measures,
    dm: Pixels,
    x: i16,
    y: i16,
    n: usize,
) -> usize
    requires { Ready buf.old f (said m) n extended × (whole_of dm ≡ whole_pixels (scaled_of m.dx)) × (x ≡ m.hoff) × (y ≡ m.voff) }
    ensures { (result ≡ 17) × (buf.new ≡ head_for f black (said m) n (Some (Extended dm x y)) ++ drop 17 buf.old) }
{
    let length = 13 + n as u64;
    let vs = narrow_values(m, 2, dm, i64::from(x), i64::from(y), length % 65536);
    let flag = flag_of(f, black, 4 + length / 65536);
    put_head(buf, flag, vs)
}

// The head of a long packet.
fn write_long(buf: &mut [u8], f: usize, black: bool, m: Measures, x: i32, y: i32, n: usize) -> usize
    requires { Ready buf.old f (said m) n long × (x ≡ m.hoff) × (y ≡ m.voff) }
    ensures { (result ≡ 37) × (buf.new ≡ head_for f black (said m) n (Some (Long x y)) ++ drop 37 buf.old) }
{
    let length = 28 + n as u64;
    let vs = long_values(m, i64::from(x), i64::from(y), length);
    let flag = flag_of(f, black, 7);
    put_head(buf, flag, vs)
}

// The number of bytes before the raster in the form picked; 0 where there is none.
pub fn head_length(k: Option<Picked>) -> usize
    ensures { result ≡ head_length k }
{
    match k {
        Some(Picked::Short(_, _, _)) => 11,
        Some(Picked::Extended(_, _, _)) => 17,
        Some(Picked::Long(_, _)) => 37,
        None => 0,
    }
}

// The flag, the length and the fields of the form picked, before n raster bytes; it answers the place behind.
fn write_form(buf: &mut [u8], f: usize, black: bool, m: Measures, k: Picked, n: usize) -> usize
    requires { (f ≤ 14) × (n ≤ 8192) × Judged (said m) × IsPicked (said m) n k × (head_length (Some k) ≤ length buf.old) }
    ensures value { result ≡ head_length (Some k) }
    ensures buf_after { buf.new ≡ head_for f black (said m) n (Some k) ++ drop result buf.old }
{
    match k {
        Picked::Short(dm, x, y) => write_short(buf, f, black, m, dm, x, y, n),
        Picked::Extended(dm, x, y) => write_extended(buf, f, black, m, dm, x, y, n),
        Picked::Long(x, y) => write_long(buf, f, black, m, x, y, n),
    }
}

// The same where a form holds; where none does there is no head, and nothing is written.
pub fn write_head(
    buf: &mut [u8],
    f: usize,
    black: bool,
    m: Measures,
    k: Option<Picked>,
    n: usize,
) -> usize
    requires { (f ≤ 14) × (n ≤ 8192) × Judged (said m) × Picks (said m) n k × (head_length k ≤ length buf.old) }
    ensures value { result ≡ head_length k }
    ensures buf_after { buf.new ≡ head_for f black (said m) n k ++ drop result buf.old }
{
    let Some(form) = k else {
        return 0;
    };
    write_form(buf, f, black, m, form, n)
}
