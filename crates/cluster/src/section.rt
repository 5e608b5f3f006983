// A section of the table: how the check goes through its records.
ghost use Rattle.std.specs.Prelude.{◌≡◌, ℕ, ◌+◌, ◌<◌, List, ◌++◌, Bool, OnOk};
ghost use Rattle.cluster.specs.Check.{faults, then};
ghost use Rattle.cluster.specs.Right.{records};

use refusal::Refusal;

// What is known of a section's records that passed the check.
pub(crate) trait Section {
    // How many records there are.
    ghost count: { List ℕ → ℕ };

    // Where a record begins.
    ghost at: { List ℕ → ℕ → ℕ };

    // Which words of a record are right.
    ghost right: { List ℕ → ℕ → List Bool };

    // What is known where so many records passed.
    ghost known: { List ℕ → ℕ → Self → Type 0 };

    // Checks the next record: a fault at its first wrong word, or one record more passed.
    fn pass(&mut self, t: &[u16], k: usize) -> Result<(), Refusal>
        requires { (k < count t.now) × known t.now k self.old }
        ensures told { (rest : List Bool) → faults t.now (at t.now k) (right t.now k ++ rest) ≡ then result (faults t.now (at t.now (k + 1)) rest) }
        ensures passed { OnOk result (known t.now (k + 1) self.new) };
}

// Checks the records of a section one after another, to the first fault.
pub(crate) fn judge<S: Section>(t: &[u16], n: usize, section: &mut S) -> Result<(), Refusal>
    requires { (n ≡ S.count t.now) × S.known t.now 0 section.old }
    ensures told { result ≡ faults t.now (S.at t.now 0) (records 0 n (S.right t.now)) }
    ensures passed { OnOk result (S.known t.now n section.new) }
{
    for k in 0..n {
        section.pass(t, k)?;
    }
    Ok(())
}
