// The rows of a contact table that a half-decided position leaves: an intersection of at most six constant words.
ghost use Rattle.std.specs.Prelude.{◌<◌};
ghost use Rattle.atoms.specs.Collected.{Collects};
ghost use Rattle.atoms.specs.Word.{Has, ATOMS};
ghost use Rattle.plan.specs.Limits.{MAX_INPUTS as Limits-as-MAX_INPUTS};
ghost use Rattle.contact_tables.specs.TableRows.{InColumn, BitAgrees, RowReached, EachRow, NoRow};

use plan::MAX_INPUTS;
use states::State;

// The rows whose bit k is set.
fn column(k: usize) -> u64
    requires { k < Limits-as-MAX_INPUTS }
    ensures { Collects (InColumn k) result }
{
    let columns = [
        0xaaaa_aaaa_aaaa_aaaa,
        0xcccc_cccc_cccc_cccc,
        0xf0f0_f0f0_f0f0_f0f0,
        0xff00_ff00_ff00_ff00,
        0xffff_0000_ffff_0000,
        0xffff_ffff_0000_0000u64,
    ];
    columns[k]
}

// Of the rows those whose bit k says of atom a what is known of it; an atom that is both up and dropped counts as up.
fn sifted(rows: u64, k: usize, a: usize, up: u64, dropped: u64) -> u64
    requires { (k < Limits-as-MAX_INPUTS) × (a < ATOMS) }
    ensures { Collects (λ j. Has rows j × BitAgrees up dropped a k j) result }
{
    let atom = atoms::single(a);
    if !atoms::are_apart(up, atom) {
        return atoms::cut(rows, column(k));
    }
    if !atoms::are_apart(dropped, atom) {
        return atoms::without(rows, column(k));
    }
    rows
}

// The rows that completions have.
pub fn agreeing_rows(inputs: u64, up: u64, dropped: u64) -> u64
    ensures { Collects (RowReached inputs up dropped) result }
{
    let mut rows = atoms::first(atoms::ATOMS);
    let mut k = 0;
    for a in atoms::each(inputs).take(MAX_INPUTS) {
        rows = sifted(rows, k, a, up, dropped);
        k += 1;
    }
    atoms::cut(rows, atoms::first(atoms::single(k) as usize))
}

// What rows tell of the inputs: up those that each of the rows has up, dropped those that none has; without rows each input is both.
pub fn told_inputs(inputs: u64, rows: u64) -> State
    ensures up { Collects (EachRow inputs rows) result.up }
    ensures dropped { Collects (NoRow inputs rows) result.dropped }
{
    let mut up = 0;
    let mut dropped = 0;
    for (k, a) in atoms::each(inputs).take(MAX_INPUTS).enumerate() {
        let with = column(k);
        up = atoms::union(up, atoms::single_if(atoms::is_subset(rows, with), a));
        dropped = atoms::union(dropped, atoms::single_if(atoms::are_apart(rows, with), a));
    }
    State { up, dropped }
}
