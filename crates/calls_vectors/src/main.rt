// Calls of figures, consistency, graphs, moves, tables, arcs and changes, told by standard input: lines in columns (document 01) with kind, a,
// b, c and amount.
// A line not in columns is a title and is printed.
//
//  1  the case: n is a, D is b, m is c, the carry is the amount
//  2  pair a joins links b and c
//  3  c lower and c upper ends of pairs are lent (closure, none_supported)
//  4 to 8  from place a on, b places hold the amount, and c places are lent. 4: weights; 5: a number for each scope;
//          6: a plan, marks of raised scopes, or a list of at most four; 7: sets and 8: rows, as closure takes them;
//          lowest_partners writes to 7. Where as many weights are lent as the case has places, the table of a full case is, with 0 past them
//          (document 02, change 5)
//
// 10  check_starting a b     20  refuted a b             30  shift a b c amount
// 11  check_working a b      21  best_unsupported a      31  press a amount
// 12  check_edges a          22  lowest_partner a b      32  transfer a b c amount
// 13  upper_bound            23  closure                 33  lower_and_raise a, values b, amount
// 14  sum_of_greatest        24  none_supported a b
// 15  is_active a b c        25  active_marks
// 16  objective              26  values_unsupported a b
// 17  greatest               27  best_values a
// 18  greatest_weights       28  lowest_partners a b
// 19  sum_of_best            29  is_acyclic
//
// Where a count is meant, a negative number stands for 2^64 - 1; the amounts 999999999999 and -99999999999 stand for 2^63 - 1 and -2^63.
// The answers in `stdout` were worked out from document 01, those of barred tuples and of loops from document 02.
#![tactic(auto)]

ghost use Rattle.std.specs.Prelude.{◌≤◌};

use arcs::{Closed, Tried};
use definitions::{Case, EDGE_PLACES, Line, Refusal, Rulebook, TABLE_PLACES};

// A line's kind, its numbers as counts, and its amount as a weight.
#[derive(Clone, Copy)]
struct Call {
    kind: usize,
    a: usize,
    b: usize,
    c: usize,
    amount: i64,
}

// ---- what is printed

// The name without the spaces after it; false where there is no name.
fn print_kept(name: &[u8]) -> bool {
    let kept = name.trim_ascii_end();
    if kept.is_empty() {
        return false;
    }
    drivers::print(b"  ");
    drivers::print(kept);
    true
}

fn print_slot(names: &[u8], from: usize) -> bool {
    if names.len() < 16 {
        return false;
    }
    if names.len() - 16 < from {
        return false;
    }
    let to = from + 16;
    print_kept(&names[from..to])
}

// Prints the name of a call, by its kind; false where there is no such call. Each name but the longest has 16 bytes.
fn print_name(kind: usize) -> bool {
    if kind < 10 {
        return false;
    }
    if kind == 26 {
        return print_kept(b"values_unsupported");
    }
    if kind < 18 {
        let names =
            b"check_starting  check_working   check_edges     upper_bound     sum_of_greatest is_active       objective       greatest        ";
        return print_slot(names, (kind - 10) * 16);
    }
    if kind < 26 {
        let names =
            b"greatest_weightssum_of_best     refuted         best_unsupportedlowest_partner  closure         none_supported  active_marks    ";
        return print_slot(names, (kind - 18) * 16);
    }
    if kind < 34 {
        let names =
            b"                best_values     lowest_partners is_acyclic      shift           press           transfer        lower_and_raise ";
        return print_slot(names, (kind - 26) * 16);
    }
    false
}

fn print(word: &[u8]) {
    drivers::print(word);
}

fn print_bytes(label: &[u8], bytes: &[u8]) {
    drivers::print(label);
    drivers::print_bytes(bytes);
    drivers::print(b"\n");
}

fn print_weights(label: &[u8], weights: &[i64]) {
    drivers::print(label);
    drivers::print_numbers(weights);
    drivers::print(b"\n");
}

fn print_table(t: &[i64], shown: usize) {
    drivers::print(b"    table");
    drivers::print_table(t, shown);
    drivers::print(b"\n");
}

fn print_best(best: &[i64]) {
    print_weights(b"    best", best);
}

fn print_sets(sets: &[u8]) {
    print_bytes(b"    sets", sets);
}

fn refused(refusal: Refusal) {
    drivers::print_refusal(refusal);
    drivers::print(b"\n");
}

fn outcome(answer: Result<(), Refusal>) {
    match answer {
        Ok(()) => print(b" done\n"),
        Err(refusal) => refused(refusal),
    }
}

fn value(z: i64) {
    drivers::print(b" value");
    drivers::print_number(z);
    drivers::print(b"\n");
}

fn figure(answer: Result<i64, Refusal>) {
    match answer {
        Ok(z) => value(z),
        Err(refusal) => refused(refusal),
    }
}

fn verdict(answer: Result<bool, Refusal>) {
    match answer {
        Ok(true) => print(b" yes\n"),
        Ok(false) => print(b" no\n"),
        Err(refusal) => refused(refusal),
    }
}

fn closed(answer: Closed) {
    match answer {
        Closed::Family => print(b" family\n"),
        Closed::Empty => print(b" empty\n"),
        Closed::Malformed => print(b" malformed\n"),
    }
}

fn tried(answer: Tried) {
    match answer {
        Tried::Unsupported => print(b" unsupported\n"),
        Tried::Supported => print(b" supported\n"),
        Tried::Malformed => print(b" malformed\n"),
    }
}

fn partner(answer: Option<u8>) {
    match answer {
        Some(l) => value(i64::from(l)),
        None => print(b" none\n"),
    }
}

// ---- a line

fn count(z: i64) -> usize {
    drivers::count_or(z, 18446744073709551615)
}

fn weight(z: i64) -> i64 {
    if z == 999_999_999_999 {
        return 9223372036854775807;
    }
    if z == -99_999_999_999 {
        return -9223372036854775808;
    }
    z
}

fn print_arguments(line: Line) {
    let numbers = [line.a, line.b, line.c, line.amount];
    drivers::print_numbers(&numbers);
    drivers::print(b":");
}

// The kind, or 0 where there is no such call; a call is printed with the numbers of its line.
fn announced(kind: usize, line: Line) -> usize {
    if kind < 9 {
        return kind;
    }
    if print_name(kind) {
        print_arguments(line);
        return kind;
    }
    drivers::print(b"?\n");
    0
}

fn call_of(line: Line) -> Call {
    Call {
        kind: announced(count(line.kind), line),
        a: count(line.a),
        b: count(line.b),
        c: count(line.c),
        amount: weight(line.amount),
    }
}

// ---- what is handed over

fn least(n: usize, most: usize) -> usize
    ensures { result ≤ most }
{
    n.min(most)
}

fn fill_weights(list: &mut [i64], from: usize, n: usize, value: i64) {
    let from = least(from, list.len());
    let to = from + least(n, list.len() - from);
    list[from..to].fill(value);
}

fn fill_bytes(list: &mut [u8], from: usize, n: usize, value: u8) {
    let from = least(from, list.len());
    let to = from + least(n, list.len() - from);
    list[from..to].fill(value);
}

fn put_weights(call: Call, t: &mut [i64; TABLE_PLACES], best: &mut [i64; TABLE_PLACES]) {
    match call.kind {
        4 => fill_weights(t, call.a, call.b, call.amount),
        5 => fill_weights(best, call.a, call.b, call.amount),
        _ => {}
    }
}

fn put_bytes(call: Call, bytes: &mut [u8; 160], sets: &mut [u8; 160], rows: &mut [u8; 160]) {
    let kind = call.kind;
    let value = drivers::byte(count(call.amount));
    match kind {
        6 => fill_bytes(bytes, call.a, call.b, value),
        7 => fill_bytes(sets, call.a, call.b, value),
        8 => fill_bytes(rows, call.a, call.b, value),
        _ => {}
    }
}

fn put_length(call: Call, lengths: &mut [usize; 9]) {
    let kind = call.kind;
    if kind < 9 {
        lengths[kind] = call.c;
    }
}

fn length_of(lengths: &[usize; 9], kind: usize, most: usize) -> usize
    ensures { result ≤ most }
{
    if kind < 9 {
        least(lengths[kind], most)
    } else {
        0
    }
}

fn sized(call: Call, case: Case) -> Case {
    let mut c = case;
    c.n = call.a;
    c.d = call.b;
    c.m = call.c;
    c.carry = call.amount;
    c
}

fn joined(call: Call, case: Case) -> Case {
    let e = call.a;
    let mut c = case;
    if e < EDGE_PLACES {
        c.lower[e] = drivers::byte(call.b);
        c.upper[e] = drivers::byte(call.c);
    }
    c
}

fn case_after(call: Call, case: Case) -> Case {
    match call.kind {
        1 => sized(call, case),
        2 => joined(call, case),
        _ => case,
    }
}

// ---- calls that change nothing

fn starting(call: Call, case: Case, t: &[i64]) {
    outcome(tables::check_starting(case, t, call.a != 0, call.b != 0));
}

fn working(call: Call, case: Case, t: &[i64]) {
    outcome(tables::check_working(case, t, call.a != 0, call.b != 0));
}

fn edges(call: Call, case: Case) {
    outcome(tables::check_edges(case, call.a != 0));
}

fn bound(case: Case, t: &[i64]) {
    figure(figures::upper_bound(case, t));
}

fn sum_of_greatest(case: Case, t: &[i64]) {
    figure(tables::sum_of_greatest(case, t));
}

fn active(call: Call, case: Case, t: &[i64]) {
    verdict(figures::is_active(case, t, call.a, call.b, call.c));
}

fn objective(case: Case, t: &[i64], plan: &[u8]) {
    figure(figures::objective(case, t, plan));
}

fn sum_of_best(case: Case, best: &[i64]) {
    figure(tables::sum_of_best(case, best));
}

fn greatest(t: &[i64]) {
    value(tables::greatest(t));
}

fn refuted(call: Call, case: Case, t: &[i64], raised: &[u8]) {
    verdict(consistency::refuted(case, t, raised, call.a, call.b));
}

fn best_unsupported(call: Call, case: Case, t: &[i64], best: &[i64], raised: &[u8]) {
    verdict(arcs::best_unsupported(case, t, best, raised, call.a));
}

fn values_unsupported(call: Call, case: Case, t: &[i64], best: &[i64], raised: &[u8]) {
    let values = drivers::byte(call.b);
    verdict(arcs::values_unsupported(case, t, best, raised, call.a, values));
}

fn best_values(call: Call, case: Case, t: &[i64], best: &[i64]) {
    value(i64::from(changes::best_values(case, t, best, call.a)));
}

fn lowest_partner(call: Call) {
    partner(arcs::lowest_partner(drivers::byte(call.a), drivers::byte(call.b)));
}

fn acyclic(case: Case) {
    verdict(graphs::is_acyclic(case));
}

fn question(call: Call, case: Case, t: &[i64], best: &[i64], bytes: &[u8]) {
    match call.kind {
        10 => starting(call, case, t),
        11 => working(call, case, t),
        12 => edges(call, case),
        13 => bound(case, t),
        14 => sum_of_greatest(case, t),
        15 => active(call, case, t),
        16 => objective(case, t, bytes),
        17 => greatest(t),
        19 => sum_of_best(case, best),
        20 => refuted(call, case, t, bytes),
        21 => best_unsupported(call, case, t, best, bytes),
        22 => lowest_partner(call),
        26 => values_unsupported(call, case, t, best, bytes),
        27 => best_values(call, case, t, best),
        29 => acyclic(case),
        _ => {}
    }
}

// ---- calls that write weights

fn greatest_weights(case: Case, t: &[i64], best: &mut [i64]) {
    outcome(tables::greatest_weights(case, t, best));
    print_best(best);
}

fn shift(call: Call, case: Case, t: &mut [i64], shown: usize) {
    outcome(moves::shift(case, t, call.a, call.b, call.c, call.amount));
    print_table(t, shown);
}

fn scope_at(list: &[u8], i: usize) -> u16 {
    u16::from(list.get(i).copied().unwrap_or(0))
}

fn press_list(call: Call, case: Case, t: &mut [i64], shown: usize, list: &[u16]) {
    outcome(moves::press(case, t, call.a, list, call.amount));
    print_table(t, shown);
}

fn press(call: Call, case: Case, t: &mut [i64], shown: usize, raised: &[u8]) {
    let n = least(raised.len(), 4);
    let list = [
        scope_at(raised, 0),
        scope_at(raised, 1),
        scope_at(raised, 2),
        scope_at(raised, 3),
    ];
    press_list(call, case, t, shown, &list[0..n]);
}

fn print_both(t: &[i64], shown: usize, best: &[i64]) {
    print_table(t, shown);
    print_best(best);
}

fn transfer(call: Call, case: Case, t: &mut [i64], shown: usize, best: &mut [i64]) {
    outcome(changes::transfer(case, t, best, call.a, call.b, call.c, call.amount));
    print_both(t, shown, best);
}

fn lower_and_raise(
    call: Call,
    case: Case,
    t: &mut [i64],
    shown: usize,
    best: &mut [i64],
    raised: &[u8],
) {
    let values = drivers::byte(call.b);
    outcome(changes::lower_and_raise(case, t, best, raised, call.a, values, call.amount));
    print_both(t, shown, best);
}

fn weighed(call: Call, case: Case, t: &mut [i64], shown: usize, best: &mut [i64], bytes: &[u8]) {
    match call.kind {
        18 => greatest_weights(case, t, best),
        30 => shift(call, case, t, shown),
        31 => press(call, case, t, shown, bytes),
        32 => transfer(call, case, t, shown, best),
        33 => lower_and_raise(call, case, t, shown, best, bytes),
        _ => question(call, case, t, best, bytes),
    }
}

// ---- calls that write marks

fn closure(lower: &[u8], upper: &[u8], rows: &[u8], raised: &[u8], sets: &mut [u8]) {
    closed(arcs::closure(lower, upper, rows, raised, sets));
    print_sets(sets);
}

fn none_supported(call: Call, lower: &[u8], upper: &[u8], rows: &[u8], raised: &[u8], sets: &[u8]) {
    let marks = drivers::byte(call.b);
    tried(arcs::none_supported(lower, upper, rows, raised, sets, call.a, marks));
}

fn network(call: Call, lower: &[u8], upper: &[u8], raised: &[u8], sets: &mut [u8], rows: &[u8]) {
    if call.kind == 23 {
        closure(lower, upper, rows, raised, sets);
    } else {
        none_supported(call, lower, upper, rows, raised, sets);
    }
}

fn ends_lent(
    call: Call,
    lower: &[u8],
    upper: &[u8],
    ends: usize,
    raised: &[u8],
    sets: &mut [u8],
    rows: &[u8],
) {
    let lower_to = least(ends, lower.len());
    let upper_to = least(ends, upper.len());
    network(
        call,
        &lower[0..lower_to],
        &upper[0..upper_to],
        raised,
        sets,
        rows,
    );
}

fn of_case(call: Call, case: Case, ends: usize, raised: &[u8], sets: &mut [u8], rows: &[u8]) {
    let lower = case.lower;
    let upper = case.upper;
    ends_lent(call, &lower, &upper, ends, raised, sets, rows);
}

fn active_marks(case: Case, t: &[i64], best: &[i64], sets: &mut [u8], rows: &mut [u8]) {
    outcome(arcs::active_marks(case, t, best, sets, rows));
    print_sets(sets);
    print_bytes(b"    rows", rows);
}

fn lowest_partners(call: Call, rows: &[u8], partners: &mut [u8]) {
    let set = drivers::byte(call.a);
    let other = drivers::byte(call.b);
    arcs::lowest_partners(rows, set, other, partners);
    print_bytes(b" partners", partners);
}

// ---- the calls on as much of each list as is lent

// `greatest` is lent what is told.
fn lent(kind: usize, case: Case, told: usize) -> usize {
    if kind == 17 {
        told
    } else {
        drivers::lent(case, told)
    }
}

fn weigh(
    call: Call,
    case: Case,
    lengths: &[usize; 9],
    t: &mut [i64],
    best: &mut [i64],
    bytes: &[u8],
) {
    let shown = length_of(lengths, 4, t.len());
    let t_to = least(lent(call.kind, case, shown), t.len());
    let best_to = length_of(lengths, 5, best.len());
    let bytes_to = length_of(lengths, 6, bytes.len());
    tables::zero_from(&mut t[0..t_to], shown);
    weighed(
        call,
        case,
        &mut t[0..t_to],
        shown,
        &mut best[0..best_to],
        &bytes[0..bytes_to],
    );
}

fn mark(
    case: Case,
    lengths: &[usize; 9],
    t: &mut [i64],
    best: &[i64],
    sets: &mut [u8],
    rows: &mut [u8],
) {
    let told = length_of(lengths, 4, t.len());
    let t_to = least(drivers::lent(case, told), t.len());
    tables::zero_from(&mut t[0..t_to], told);
    let best_to = length_of(lengths, 5, best.len());
    let sets_to = length_of(lengths, 7, sets.len());
    let rows_to = length_of(lengths, 8, rows.len());
    active_marks(
        case,
        &t[0..t_to],
        &best[0..best_to],
        &mut sets[0..sets_to],
        &mut rows[0..rows_to],
    );
}

fn close(
    call: Call,
    case: Case,
    lengths: &[usize; 9],
    raised: &[u8],
    sets: &mut [u8],
    rows: &[u8],
) {
    let raised_to = length_of(lengths, 6, raised.len());
    let sets_to = length_of(lengths, 7, sets.len());
    let rows_to = length_of(lengths, 8, rows.len());
    let ends = length_of(lengths, 3, EDGE_PLACES);
    of_case(
        call,
        case,
        ends,
        &raised[0..raised_to],
        &mut sets[0..sets_to],
        &rows[0..rows_to],
    );
}

fn name_partners(call: Call, lengths: &[usize; 9], rows: &[u8], partners: &mut [u8]) {
    let rows_to = length_of(lengths, 8, rows.len());
    let partners_to = length_of(lengths, 7, partners.len());
    lowest_partners(call, &rows[0..rows_to], &mut partners[0..partners_to]);
}

// ---- the lines

fn call_weights(
    call: Call,
    case: Case,
    lengths: &[usize; 9],
    t: &mut [i64; TABLE_PLACES],
    best: &mut [i64; TABLE_PLACES],
    bytes: &[u8; 160],
) {
    if 9 < call.kind {
        weigh(call, case, lengths, t, best, bytes);
    }
}

fn call_marks(
    call: Call,
    case: Case,
    lengths: &[usize; 9],
    t: &mut [i64; TABLE_PLACES],
    best: &[i64; TABLE_PLACES],
    bytes: &[u8; 160],
    sets: &mut [u8; 160],
    rows: &mut [u8; 160],
) {
    match call.kind {
        23..=24 => close(call, case, lengths, bytes, sets, rows),
        25 => mark(case, lengths, t, best, sets, rows),
        28 => name_partners(call, lengths, rows, sets),
        _ => {}
    }
}

fn no_case() -> Case {
    Case {
        n: 0,
        d: 0,
        m: 0,
        lower: [0u8; EDGE_PLACES],
        upper: [0u8; EDGE_PLACES],
        carry: 0,
        rulebook: Rulebook::Desk,
    }
}

fn vectors(input: &[u8]) {
    let mut lengths = [0usize; 9];
    let mut t = [0i64; TABLE_PLACES];
    let mut best = [0i64; TABLE_PLACES];
    let mut bytes = [0u8; 160];
    let mut sets = [0u8; 160];
    let mut rows = [0u8; 160];
    let mut case = no_case();
    for line in input.chunks_exact(27) {
        let call = call_of(drivers::line_of(line));
        case = case_after(call, case);
        put_length(call, &mut lengths);
        put_weights(call, &mut t, &mut best);
        put_bytes(call, &mut bytes, &mut sets, &mut rows);
        call_weights(call, case, &lengths, &mut t, &mut best, &bytes);
        call_marks(
            call, case, &lengths, &mut t, &best, &bytes, &mut sets, &mut rows,
        );
    }
}

fn main() {
    let mut input = [0u8; 48000];
    let n = io::read_full(0, &mut input);
    vectors(&input[..n]);
}
