#![tactic(auto)]
// Places of which the first d are in use: the stack, the formatting list, the template modes.
ghost use Rattle.std.specs.Prelude.{◌≡◌, ◌+◌, ◌-◌, ◌≤◌, ◌<◌, ℕ, Bool, length};
ghost use Rattle.places.specs.Places.{places_of, pushed, without, within, swapped, cut, place_of, exchanged, renamed, after_at, left, first_of, without_any, down, first_with};
ghost use Rattle.places.specs.Search.{Computes};

/// Where the last entry stands that has `hit`, unless one that has `stop` stands after it.
pub fn last_with<H: Fn(u16) -> bool, S: Fn(u16) -> bool>(
    s: &[u16],
    hit: H,
    stop: S,
) -> Option<usize>
    requires hit { H.IsAlwaysCallable hit }
    requires stop { S.IsAlwaysCallable stop }
    ensures { (p q : ℕ → Bool) → Computes (H.post hit) p → Computes (S.post stop) q → result ≡ down p q s.now (length s.now) }
{
    for k in (0..s.len()).rev() {
        if hit(s[k]) {
            return Some(k);
        }
        if stop(s[k]) {
            return None;
        }
    }
    None
}

/// Where n stands among the first d places, the last such place first.
#[tactic(auto, unfolding(crate::specs::Places::place_of, crate::specs::Places::last_with))]
pub fn find(s: &[u16], d: usize, n: u16) -> Option<usize>
    requires { d ≤ length s.now }
    ensures { result ≡ place_of (places_of s.now d) n }
{
    last_with(&s[..d], |x| x == n, |_| false)
}

/// What was found first, or else the other.
#[tactic(auto, unfolding(crate::specs::Places::first_of))]
pub fn first_of(found: Option<usize>, other: Option<usize>) -> Option<usize>
    ensures { result ≡ first_of found other }
{
    found.or(other)
}

/// n comes in as the last entry; the depth after it is one more.
#[tactic(auto, using(crate::proofs::Laws::pushed_law))]
pub fn push(s: &mut [u16], d: usize, n: u16) -> usize
    requires { d < length s.old }
    ensures { (result ≡ d + 1) × (places_of s.new result ≡ pushed (places_of s.old d) n) }
{
    s[d] = n;
    d + 1
}

/// Entry i leaves; the depth after it is one less.
pub fn remove_at(s: &mut [u16], d: usize, i: usize) -> usize
    requires { (i < d) × (d ≤ length s.old) }
    ensures { (result ≡ d - 1) × (places_of s.new result ≡ without (places_of s.old d) i) }
{
    let last = d - 1;
    s.copy_within(i + 1..d, i);
    s[last] = 0;
    last
}

/// Entry i leaves, if there is one.
#[tactic(auto, using(crate::proofs::Laws::without_in, crate::proofs::Laws::without_out))]
pub fn leave_at(s: &mut [u16], d: usize, i: usize) -> usize
    requires { d ≤ length s.old }
    ensures { (result ≤ d) × (d ≤ result + 1) × (places_of s.new result ≡ without_any (places_of s.old d) i) }
{
    if i < d {
        return remove_at(s, d, i);
    }
    d
}

/// n comes in as entry i; the depth after it is one more.
pub fn insert_at(s: &mut [u16], d: usize, i: usize, n: u16) -> usize
    requires { (i ≤ d) × (d < length s.old) }
    ensures { (result ≡ d + 1) × (places_of s.new result ≡ within (places_of s.old d) i n) }
{
    s.copy_within(i..d, i + 1);
    s[i] = n;
    d + 1
}

/// n takes the place of entry i.
#[tactic(auto, using(crate::proofs::Laws::swapped_law))]
pub fn swap_at(s: &mut [u16], d: usize, i: usize, n: u16)
    requires { (i < d) × (d ≤ length s.old) }
    ensures { places_of s.new d ≡ swapped (places_of s.old d) i n }
{
    s[i] = n;
}

/// Entry i and all after it leave; the depth after it is i.
pub fn cut_at(s: &mut [u16], d: usize, i: usize) -> usize
    requires { (i ≤ d) × (d ≤ length s.old) }
    ensures { (result ≡ i) × (places_of s.new result ≡ cut (places_of s.old d) i) }
{
    s[i..d].fill(0);
    i
}

/// f leaves and n comes right after x.
#[tactic(auto, using(crate::proofs::Laws::place_lt), unfolding(crate::specs::Places::exchanged, crate::specs::Places::exchanged_at))]
pub fn exchange(s: &mut [u16], d: usize, f: u16, x: u16, n: u16) -> usize
    requires { d ≤ length s.old }
    ensures { (result ≤ d) × (places_of s.new result ≡ exchanged (places_of s.old d) f x n) }
{
    match find(s, d, f) {
        None => d,
        Some(j) => {
            let less = remove_at(s, d, j);
            insert_after(s, less, x, n)
        }
    }
}

// n comes right after x, if x is there.
#[tactic(auto, using(crate::proofs::Laws::place_lt), unfolding(crate::specs::Places::after_at))]
fn insert_after(s: &mut [u16], d: usize, x: u16, n: u16) -> usize
    requires { d < length s.old }
    ensures { (result ≤ d + 1) × (places_of s.new result ≡ after_at (place_of (places_of s.old d) x) (places_of s.old d) n) }
{
    match find(s, d, x) {
        None => d,
        Some(i) => insert_at(s, d, i + 1, n),
    }
}

/// n takes the place of f.
#[tactic(auto, using(crate::proofs::Laws::place_lt), unfolding(crate::specs::Places::renamed, crate::specs::Places::renamed_at))]
pub fn rename(s: &mut [u16], d: usize, f: u16, n: u16)
    requires { d ≤ length s.old }
    ensures { places_of s.new d ≡ renamed (places_of s.old d) f n }
{
    match find(s, d, f) {
        None => {}
        Some(j) => swap_at(s, d, j, n),
    }
}

/// n leaves, if it is there.
#[tactic(auto, using(crate::proofs::Laws::place_lt), unfolding(crate::specs::Places::left, crate::specs::Places::left_at))]
pub fn leave(s: &mut [u16], d: usize, n: u16) -> usize
    requires { d ≤ length s.old }
    ensures { (result ≤ d) × (places_of s.new result ≡ left (places_of s.old d) n) }
{
    match find(s, d, n) {
        None => d,
        Some(j) => remove_at(s, d, j),
    }
}
