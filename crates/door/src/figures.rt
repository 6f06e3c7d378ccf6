// Figures in a lent list.
ghost use Rattle.std.specs.Prelude.{◌≡◌, cond, [], ◌∷◌, ◌+◌, ◌≤◌, length, get_or};
ghost use Rattle.std.proofs.lemmas.List.Edits.{sets};
ghost use Rattle.door.specs.Meaning.Figures.{Padded};

pub(crate) fn bit(b: bool) -> u64
    ensures { result ≡ cond b 1 0 }
{
    if b { 1 } else { 0 }
}

// The figure at a place, and 0 behind the end.
fn figure_at(figures: &[u64], i: usize) -> u64
    ensures { result ≡ get_or figures.now i 0 }
{
    if i < figures.len() { figures[i] } else { 0 }
}

// Figures, and zeros behind them, at the front of a list.
pub(crate) fn put_figures(figures: &[u64], zeros: usize, info: &mut [u64])
    requires { length figures.now + zeros ≤ length info.old }
    ensures { Padded figures.now zeros info.old info.new }
{
    let end = figures.len() + zeros;
    let mut i = 0;
    while i < end {
        info[i] = figure_at(figures, i);
        i += 1;
    }
}

// Two figures, and three, from the k-th on.
pub(crate) fn put_two(a: u64, b: u64, info: &mut [u64], k: usize)
    requires { k + 2 ≤ length info.old }
    ensures { info.new ≡ sets info.old k (a ∷ b ∷ []) }
{
    info[k] = a;
    info[k + 1] = b;
}

pub(crate) fn put_three(a: u64, b: u64, c: u64, info: &mut [u64], k: usize)
    requires { k + 3 ≤ length info.old }
    ensures { info.new ≡ sets info.old k (a ∷ b ∷ c ∷ []) }
{
    info[k] = a;
    info[k + 1] = b;
    info[k + 2] = c;
}
