// Lines: five numbers in columns and a line feed, read and written (document 01, "Lines"). The width of the amount column is an argument;
// `read_line` and `write_line` are at the desk's.
#![tactic(auto)]

ghost use Rattle.std.specs.Prelude.{◌≡◌, true, false, [], ◌∷◌, ◌++◌, ℕ, ◌+◌, ◌-◌, ◌≤◌, ◌<◌, ◌^◌, ltb, pos, nat_abs, length, take, drop, replicate, Ok, Some};
ghost use Rattle.integers.specs.Words.{within};
ghost use Rattle.definitions.specs.declared.Rulebook.TheVariants.{Desk};
ghost use Rattle.definitions.specs.Rules.{rules_in};
ghost use Rattle.definitions.specs.Lines.{decimal, number_text, too_wide, column_text, read_positive, read_number, read_column, column_at, read_line};
ghost use Rattle.definitions.specs.Lines.{line_length, line_text, line_too_wide, overwritten};
ghost use Rattle.definitions.specs.RoundLines.{raise_line};
ghost use Rattle.calls.specs.Calls.{read_line_answer, write_line_call};
ghost use Rattle.lines.specs.Found.{digits_found, digits_value, plain_found, negative_found, column_found, line_found, line_answer};
ghost use Rattle.lines.specs.AtWidth.{width_out, line_out, read_line_at, write_line_at};
ghost use Rattle.lines.specs.WriteNumber.{write_number_call};
ghost use Rattle.lines.specs.Words.{Word};
ghost use Rattle.lines.specs.Digits.{four_digits, sign_byte};
ghost use Rattle.lines.specs.Raises.{is_raise, scope_from, raise_of, raised_at, small_numbers, Digit, Small, RaiseText};

use definitions::{Line, Refusal, Rulebook};

// Four spaces, and three spaces and a 0, as words.
const BLANKS: u64 = 538976288;

const ZERO: u64 = 807411744;

// More than three digits make.
const NONE: u64 = 1000;

// ---- reading

// Four bytes as one number, so that they are compared at once.
fn word(t: &[u8], i: usize) -> u64
    requires { i + 4 ≤ length t.now }
    ensures { Word t.now i result }
{
    let a = u64::from(t[i]);
    let b = u64::from(t[i + 1]);
    let c = u64::from(t[i + 2]);
    let d = u64::from(t[i + 3]);
    a + b * 256 + c * 65536 + d * 16777216
}

// Spaces that t begins with, four at a time.
fn blank_words(t: &[u8]) -> usize
    ensures { (result ≤ length t.now) × (read_column t.now ≡ read_column (drop result t.now)) }
{
    let mut i: usize = 0;
    // Not a for: it steps by four bytes.
    while 4 <= t.len() - i {
        if word(t, i) != BLANKS {
            return i;
        }
        i += 4;
    }
    i
}

// How many spaces t begins with.
fn blanks(t: &[u8]) -> usize
    ensures { (result ≤ length t.now) × (read_column t.now ≡ read_number (drop result t.now)) }
{
    for i in blank_words(t)..t.len() {
        if t[i] != b' ' {
            return i;
        }
    }
    t.len()
}

// The positive number whose digits are t.
fn positive(t: &[u8]) -> Option<u64>
    requires { length t.now ≤ 18 }
    ensures { (digits_found result ≡ read_positive t.now) × (digits_value result < 10 ^ 18) }
{
    if t.is_empty() || t[0] == b'0' {
        return None;
    }
    let mut v: u64 = 0;
    for b in t {
        if *b < b'0' || b'9' < *b {
            return None;
        }
        v = v * 10 + u64::from(*b - b'0');
    }
    Some(v)
}

fn plain(d: Option<u64>) -> Option<i64>
    requires { digits_value d < 10 ^ 18 }
    ensures { column_found result ≡ plain_found (digits_found d) }
{
    match d {
        Some(v) => Some(v as i64),
        None => None,
    }
}

fn negative(d: Option<u64>) -> Option<i64>
    requires { digits_value d < 10 ^ 18 }
    ensures { column_found result ≡ negative_found (digits_found d) }
{
    match d {
        Some(v) => {
            let z = v as i64;
            Some(0 - z)
        }
        None => None,
    }
}

fn read_column(t: &[u8]) -> Option<i64>
    requires { length t.now ≤ 18 }
    ensures { column_found result ≡ read_column t.now }
{
    let i = blanks(t);
    if i == t.len() {
        return None;
    }
    if t[i] == b'-' {
        return negative(positive(&t[i + 1..]));
    }
    if t[i] == b'0' {
        if i + 1 == t.len() {
            return Some(0);
        }
        return None;
    }
    plain(positive(&t[i..]))
}

fn read_column_at(bytes: &[u8], from: usize, width: usize) -> Option<i64>
    requires { (from + width ≤ length bytes.now) × (width ≤ 18) }
    ensures { column_found result ≡ column_at from width bytes.now }
{
    let to = from + width;
    read_column(&bytes[from..to])
}

fn is_digit(b: u64, least: u64) -> bool
    ensures { result ≡ within least 57 b }
{
    (least <= b) & (b <= 57)
}

// A column of two bytes, which mostly holds one digit or two.
fn read_pair(bytes: &[u8], from: usize) -> Option<i64>
    requires { from + 2 ≤ length bytes.now }
    ensures { column_found result ≡ column_at from 2 bytes.now }
{
    let c = u64::from(bytes[from]);
    let d = u64::from(bytes[from + 1]);
    if c == 32 && is_digit(d, 48) {
        return plain(Some(d - 48));
    }
    if is_digit(c, 49) && is_digit(d, 48) {
        return plain(Some((c - 48) * 10 + (d - 48)));
    }
    read_column_at(bytes, from, 2)
}

// A column of four bytes, which mostly begins with two spaces.
fn read_narrow(bytes: &[u8], from: usize) -> Option<i64>
    requires { from + 4 ≤ length bytes.now }
    ensures { column_found result ≡ column_at from 4 bytes.now }
{
    if (bytes[from] == 32) & (bytes[from + 1] == 32) {
        return read_pair(bytes, from + 2);
    }
    read_column_at(bytes, from, 4)
}

// A column of any width, which mostly begins with many spaces.
fn read_wide(t: &[u8]) -> Option<i64>
    requires { length t.now ≤ 18 }
    ensures { column_found result ≡ read_column t.now }
{
    let i = blank_words(t);
    if t.len() - i == 4 {
        return read_narrow(t, i);
    }
    read_column(&t[i..])
}

// The line of five columns, if each is a number.
fn line_of(
    kind: Option<i64>,
    a: Option<i64>,
    b: Option<i64>,
    c: Option<i64>,
    amount: Option<i64>,
) -> Result<Line, Refusal>
    ensures { result ≡ line_answer (line_found (column_found kind) (column_found a) (column_found b) (column_found c) (column_found amount)) }
{
    let Some(kind) = kind else {
        return Err(Refusal::NotInColumns);
    };
    let Some(a) = a else {
        return Err(Refusal::NotInColumns);
    };
    let Some(b) = b else {
        return Err(Refusal::NotInColumns);
    };
    let Some(c) = c else {
        return Err(Refusal::NotInColumns);
    };
    let Some(amount) = amount else {
        return Err(Refusal::NotInColumns);
    };
    Ok(Line {
        kind,
        a,
        b,
        c,
        amount,
    })
}

// ---- raise lines

// Whether the amount column, which has four bytes or more and ends before byte `end`, holds a 0.
fn no_amount(t: &[u8], end: usize) -> bool
    requires { (18 ≤ end) × (end ≤ length t.now) }
    ensures { result ≡ true → column_at 14 (end - 14) t.now ≡ Some (pos 0) }
{
    let last = end - 4;
    let mut blank = true;
    let mut i: usize = 14;
    // Not a for: it steps by four bytes.
    while i < last {
        blank = blank & (word(t, i) == BLANKS);
        i += 4;
    }
    blank & (word(t, last) == ZERO)
}

// Whether a line is a raise of a scope of at most three digits, but for these digits.
fn is_raise(t: &[u8]) -> bool
    requires { 19 ≤ length t.now }
    ensures { result ≡ true → RaiseText t.now }
{
    let end = t.len() - 1;
    (t[0] == 32)
        & (t[1] == 51)
        & (t[2] == 32)
        & (word(t, 6) == ZERO)
        & (word(t, 10) == ZERO)
        & no_amount(t, end)
        & (t[end] == 10)
}

// A digit's number, or NONE.
fn digit(b: u8) -> u64
    ensures { Digit b result }
{
    if b < 48 {
        return NONE;
    }
    if 57 < b {
        return NONE;
    }
    u64::from(b - b'0')
}

fn two_digits(b: u8, c: u8) -> u64
    ensures { Small (32 ∷ 32 ∷ b ∷ c ∷ []) result }
{
    if b == 48 {
        return NONE;
    }
    digit(b) * 10 + digit(c)
}

fn three_digits(a: u8, b: u8, c: u8) -> u64
    ensures { Small (32 ∷ a ∷ b ∷ c ∷ []) result }
{
    if a == 48 {
        return NONE;
    }
    digit(a) * 100 + digit(b) * 10 + digit(c)
}

// The number of at most three digits in a column, or NONE or more.
fn small_number(a: u8, b: u8, c: u8) -> u64
    ensures { Small (32 ∷ a ∷ b ∷ c ∷ []) result }
{
    if a != 32 {
        return three_digits(a, b, c);
    }
    if b != 32 {
        return two_digits(b, c);
    }
    digit(c)
}

// The scope of a raise line, or NONE or more where another way must tell.
fn quick_scope(t: &[u8]) -> u64
    ensures { (width : ℕ) → length t.now ≡ line_length width → result < small_numbers → read_line width t.now ≡ Some (raise_line result) }
{
    if t.len() < 19 {
        return NONE;
    }
    if !is_raise(t) {
        return NONE;
    }
    small_number(t[3], t[4], t[5])
}

fn is_raise_line(line: Line) -> bool
    ensures { result ≡ is_raise line }
{
    (line.kind == 3) & (line.b == 0) & (line.c == 0) & (line.amount == 0)
}

fn scope_from(a: i64) -> Option<usize>
    ensures { result ≡ scope_from a }
{
    if a < 0 {
        return None;
    }
    Some(a as usize)
}

fn line_scope(line: Line) -> Option<usize>
    ensures { result ≡ raise_of (Ok line) }
{
    if !is_raise_line(line) {
        return None;
    }
    scope_from(line.a)
}

fn scope_of(read: Result<Line, Refusal>) -> Option<usize>
    ensures { result ≡ raise_of read }
{
    match read {
        Err(_) => None,
        Ok(line) => line_scope(line),
    }
}

// ---- writing

fn digit_count(n: u64) -> usize
    ensures { result ≡ length (decimal n) }
{
    let mut k: usize = 1;
    let mut rest = n;
    // Not a for: it runs until one digit is left.
    while 10 <= rest {
        rest /= 10;
        k += 1;
    }
    k
}

fn text_length(z: i64) -> usize
    ensures { result ≡ length (number_text z) }
{
    let k = digit_count(z.unsigned_abs());
    if z < 0 { k + 1 } else { k }
}

// 10 to the power k.
fn power(k: usize) -> u64
    requires { k ≤ 18 }
    ensures { result ≡ 10 ^ k }
{
    10_u64.pow(k as u32)
}

fn signed(n: u64) -> i64
    requires { n ≤ 10 ^ 18 }
    ensures { result ≡ pos n }
{
    n as i64
}

// A minus takes a byte.
fn too_wide(width: usize, z: i64) -> bool
    requires { (1 ≤ width) × (width ≤ 18) }
    ensures { result ≡ too_wide width z }
{
    let most = signed(power(width));
    let least = 0 - signed(power(width - 1));
    (z <= least) | (most <= z)
}

fn line_too_wide(line: Line, width: usize) -> bool
    requires { (1 ≤ width) × (width ≤ 18) }
    ensures { result ≡ line_too_wide width line }
{
    too_wide(2, line.kind)
        | too_wide(4, line.a)
        | too_wide(4, line.b)
        | too_wide(4, line.c)
        | too_wide(width, line.amount)
}

// No line of this width holds the line.
fn line_out(line: Line, width: usize) -> bool
    ensures { result ≡ line_out width line }
{
    if width_out(width) {
        return true;
    }
    line_too_wide(line, width)
}

// So many bytes are fewer than a line.
fn is_short(room: usize, width: usize) -> bool
    ensures { result ≡ ltb room (line_length width) }
{
    if room < 15 {
        return true;
    }
    room - 15 < width
}

// Puts n's digits at the end of out, one at a time, and answers where they begin.
fn put_few(out: &mut [u8], n: u64) -> usize
    requires { length (decimal n) ≤ length out.old }
    ensures { (result + length (decimal n) ≡ length out.old) × (out.new ≡ take result out.old ++ decimal n) }
{
    let mut i = out.len();
    let mut rest = n;
    // Not a for: it runs until one digit is left.
    while 10 <= rest {
        i -= 1;
        out[i] = 48 + (rest % 10) as u8;
        rest /= 10;
    }
    i -= 1;
    out[i] = 48 + rest as u8;
    i
}

// Puts n's four digits at byte i.
fn put_four(out: &mut [u8], i: usize, n: u64)
    requires { (i + 4 ≤ length out.old) × (n < 10000) }
    ensures { out.new ≡ take i out.old ++ (four_digits n ++ drop (i + 4) out.old) }
{
    out[i] = 48 + (n / 1000) as u8;
    out[i + 1] = 48 + (n / 100 % 10) as u8;
    out[i + 2] = 48 + (n / 10 % 10) as u8;
    out[i + 3] = 48 + (n % 10) as u8;
}

// Puts n's digits at the end of out, four at a time, and answers where they begin.
fn put_digits(out: &mut [u8], n: u64) -> usize
    requires { length (decimal n) ≤ length out.old }
    ensures { (result + length (decimal n) ≡ length out.old) × (out.new ≡ take result out.old ++ decimal n) }
{
    let mut i = out.len();
    let mut rest = n;
    // Not a for: it steps by four digits, until at most four are left.
    while 10000 <= rest {
        i -= 4;
        put_four(out, i, rest % 10000);
        rest /= 10000;
    }
    put_few(&mut out[..i], rest)
}

// A minus, or a space.
fn sign(z: i64) -> u8
    ensures { result ≡ sign_byte z }
{
    if z < 0 { 45 } else { 32 }
}

// Fills out with z, right-justified.
fn put_column(out: &mut [u8], z: i64)
    requires { length (number_text z) ≤ length out.old }
    ensures { out.new ≡ column_text (length out.old) z }
{
    out.fill(b' ');
    let i = put_digits(out, z.unsigned_abs());
    if 0 < i {
        let m = i - 1;
        out[m] = sign(z);
    }
}

// Puts z into the column at byte `from`.
fn put_column_at(out: &mut [u8], from: usize, width: usize, z: i64)
    requires { (from + width ≤ length out.old) × (too_wide width z ≡ false) }
    ensures { out.new ≡ take from out.old ++ (column_text width z ++ drop (from + width) out.old) }
{
    let to = from + width;
    put_column(&mut out[from..to], z);
}

fn put_line(out: &mut [u8], line: Line, width: usize)
    requires { (line_length width ≤ length out.old) × (line_too_wide width line ≡ false) }
    ensures { out.new ≡ overwritten (line_text width line) out.old }
{
    put_column_at(out, 0, 2, line.kind);
    put_column_at(out, 2, 4, line.a);
    put_column_at(out, 6, 4, line.b);
    put_column_at(out, 10, 4, line.c);
    put_column_at(out, 14, width, line.amount);
    out[14 + width] = 10;
}

// Writes z without padding at out's first bytes, and answers how many they are.
pub fn write_number(out: &mut [u8], z: i64) -> Result<usize, Refusal>
    ensures { (result ≡ (write_number_call out.old z).answer) × (out.new ≡ (write_number_call out.old z).out) }
{
    let n = text_length(z);
    if out.len() < n {
        return Err(Refusal::WrongLength);
    }
    put_column(&mut out[..n], z);
    Ok(n)
}

// ---- the calls at any width

// No amount column has this width.
pub fn width_out(width: usize) -> bool
    ensures { result ≡ width_out width }
{
    !((1 <= width) & (width <= 18))
}

// A line whose amount column has this width.
pub fn read_line_in(bytes: &[u8], width: usize) -> Result<Line, Refusal>
    ensures { result ≡ read_line_at width bytes.now }
{
    if width_out(width) {
        return Err(Refusal::NotInColumns);
    }
    let end = 14 + width;
    if bytes.len() != end + 1 {
        return Err(Refusal::NotInColumns);
    }
    if bytes[end] != 10 {
        return Err(Refusal::NotInColumns);
    }
    let kind = read_pair(bytes, 0);
    let a = read_narrow(bytes, 2);
    let b = read_narrow(bytes, 6);
    let c = read_narrow(bytes, 10);
    let amount = read_wide(&bytes[14..end]);
    line_of(kind, a, b, c, amount)
}

// The scope of a line whose amount column has this width, if it is a raise line.
pub fn raised_scope(bytes: &[u8], width: usize) -> Option<usize>
    ensures { result ≡ raised_at width bytes.now }
{
    if width_out(width) {
        return None;
    }
    if bytes.len() != 15 + width {
        return None;
    }
    let x = quick_scope(bytes);
    if x < NONE {
        return Some(x as usize);
    }
    scope_of(read_line_in(bytes, width))
}

// Writes the line at out's first bytes, with an amount column of this width.
pub fn write_line_in(out: &mut [u8], line: Line, width: usize) -> Result<(), Refusal>
    ensures { (result ≡ (write_line_at width out.old line).answer) × (out.new ≡ (write_line_at width out.old line).out) }
{
    if is_short(out.len(), width) {
        return Err(Refusal::WrongLength);
    }
    if line_out(line, width) {
        return Err(Refusal::OutOfRange);
    }
    put_line(out, line, width);
    Ok(())
}

// ---- the calls at the desk's width

pub fn read_line(bytes: &[u8]) -> Result<Line, Refusal>
    ensures { result ≡ read_line_answer (rules_in Desk) bytes.now }
{
    read_line_in(bytes, rules::amount_width(Rulebook::Desk))
}

// Writes the line at out's first bytes.
pub fn write_line(out: &mut [u8], line: Line) -> Result<(), Refusal>
    ensures { (result ≡ (write_line_call (rules_in Desk) out.old line).answer)
        × (out.new ≡ (write_line_call (rules_in Desk) out.old line).out) }
{
    write_line_in(out, line, rules::amount_width(Rulebook::Desk))
}
