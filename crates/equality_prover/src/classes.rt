//! Class numbers at places, and joining two classes; the lower of two numbers remains.
//! `specs/Growth.antt` says what that does to the classes.

ghost use Rattle.std.specs.Prelude.{◌≡◌, ◌≢◌, ℕ, ◌<◌, length};
ghost use Rattle.equality_prover.specs.Places.{one_class, pairs_in_class};
ghost use Rattle.equality_prover.specs.Growth.{class_at, relabelled, IsJoined};

// Gives the items of one number another.
fn relabel(classes: &mut [usize], from: usize, into: usize)
    ensures { (k : ℕ) → k < length classes.old → class_at classes.new k ≡ relabelled from into (class_at classes.old k) }
{
    for class in classes.iter_mut() {
        if *class == from {
            *class = into;
        }
    }
}

/// Makes one class of those of the items at two places.
#[tactic(auto, using(crate::proofs::Relabelling::first_higher, crate::proofs::Relabelling::second_higher))]
pub fn join(classes: &mut [usize], i: usize, j: usize)
    requires first { i < length classes.old }
    requires second { j < length classes.old }
    requires apart { class_at classes.old i ≢ class_at classes.old j }
    ensures { IsJoined i j classes.old classes.new }
{
    let first = classes[i];
    let second = classes[j];
    if first < second {
        relabel(classes, second, first);
    } else {
        relabel(classes, first, second);
    }
}

/// Whether both places have a number, and the same one.
pub fn one_class(classes: &[usize], p: usize, q: usize) -> bool
    ensures { result ≡ one_class classes.now p q }
{
    match (classes.get(p), classes.get(q)) {
        (Some(c), Some(d)) => *c == *d,
        _ => false,
    }
}

/// .. and so for pairs of places, of which there are as many on both sides.
#[tactic(auto, using(crate::proofs::Relabelling::next_pair, crate::proofs::Relabelling::no_pair, crate::proofs::Relabelling::other_count), unfolding(crate::specs::Places::pairs_in_class))]
pub fn pairs_in_class(classes: &[usize], ps: &[usize], qs: &[usize]) -> bool
    ensures { result ≡ pairs_in_class classes.now ps.now qs.now }
{
    if ps.len() != qs.len() {
        return false;
    }
    for (k, p) in ps.iter().enumerate() {
        if !one_class(classes, *p, qs[k]) {
            return false;
        }
    }
    true
}
