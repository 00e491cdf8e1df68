// The functions of the crates word, tree, cover and lock under names that C can link, each with its own contract, for the comparison with the model.
// (Many are of one shape: C links each by a name of its own, has no generic functions, and passes numbers.)
#![tactic(auto)]

ghost use Rattle.std.specs.Prelude.{◌≡◌, ◌+◌, ◌^◌, ◌≤◌, ◌<◌, length, get_or};
ghost use Rattle.word.specs.rules.Word.{Place, field, add_field, occ, tcnt, tmax, dcnt, dmax, add_occ, add_tcnt, add_tmax, add_dcnt, add_dmax, layout, add_fields, return_occ, wanted_bits, swap_of, masked_swap, take_bits, give_bits};
ghost use Rattle.tree.specs.rules.Tree.{parent, child, first, last, level, Node, size, left};
ghost use Rattle.tree.specs.rules.Lists.{ancestor, ancestors, notify_list, check_list};
ghost use Rattle.cover.specs.rules.Answer.{answer};
ghost use Rattle.lock.specs.laws.Active.{Settled};
ghost use Rattle.lock.specs.rules.Unreadable.{unreadable};
ghost use Rattle.lock.specs.rules.ByValue.{call_of, answer_to, words_after};

use word::{Dcnt, Dmax, Occ, Tcnt, Tmax};

#[unsafe(no_mangle)]
pub extern "C" fn probe_field(word: u64, shift: u64, width: u64) -> u64
    requires { Place shift width }
    ensures { result ≡ field shift width word }
{
    word::field(word, shift, width)
}

#[unsafe(no_mangle)]
pub extern "C" fn probe_add_field(word: u64, shift: u64, width: u64, delta: u64) -> u64
    requires { Place shift width }
    ensures { result ≡ add_field shift width delta word }
{
    word::add_field(word, shift, width, delta)
}

#[unsafe(no_mangle)]
pub extern "C" fn probe_occ(word: u64) -> u64
    ensures { result ≡ occ word }
{
    word::get::<Occ>(word)
}

#[unsafe(no_mangle)]
pub extern "C" fn probe_tcnt(word: u64) -> u64
    ensures { result ≡ tcnt word }
{
    word::get::<Tcnt>(word)
}

#[unsafe(no_mangle)]
pub extern "C" fn probe_tmax(word: u64) -> u64
    ensures { result ≡ tmax word }
{
    word::get::<Tmax>(word)
}

#[unsafe(no_mangle)]
pub extern "C" fn probe_dcnt(word: u64) -> u64
    ensures { result ≡ dcnt word }
{
    word::get::<Dcnt>(word)
}

#[unsafe(no_mangle)]
pub extern "C" fn probe_dmax(word: u64) -> u64
    ensures { result ≡ dmax word }
{
    word::get::<Dmax>(word)
}

#[unsafe(no_mangle)]
pub extern "C" fn probe_add_occ(word: u64, delta: u64) -> u64
    ensures { result ≡ add_occ delta word }
{
    word::add::<Occ>(word, delta)
}

#[unsafe(no_mangle)]
pub extern "C" fn probe_add_tcnt(word: u64, delta: u64) -> u64
    ensures { result ≡ add_tcnt delta word }
{
    word::add::<Tcnt>(word, delta)
}

#[unsafe(no_mangle)]
pub extern "C" fn probe_add_tmax(word: u64, delta: u64) -> u64
    ensures { result ≡ add_tmax delta word }
{
    word::add::<Tmax>(word, delta)
}

#[unsafe(no_mangle)]
pub extern "C" fn probe_add_dcnt(word: u64, delta: u64) -> u64
    ensures { result ≡ add_dcnt delta word }
{
    word::add::<Dcnt>(word, delta)
}

#[unsafe(no_mangle)]
pub extern "C" fn probe_add_dmax(word: u64, delta: u64) -> u64
    ensures { result ≡ add_dmax delta word }
{
    word::add::<Dmax>(word, delta)
}

#[unsafe(no_mangle)]
pub extern "C" fn probe_add_fields(word: u64, deltas: u64) -> u64
    ensures { result ≡ add_fields layout deltas word }
{
    word::add_fields(word, deltas)
}

#[unsafe(no_mangle)]
pub extern "C" fn probe_return_occ(word: u64) -> u64
    ensures { result ≡ return_occ word }
{
    word::return_occ(word)
}

#[unsafe(no_mangle)]
pub extern "C" fn probe_wanted_bits(edge: u64, l: u64, r: u64) -> u64
    requires { (l < r) × (l < edge + 64) × (edge < r) × (edge + 64 < 2 ^ 64) }
    ensures { result ≡ wanted_bits edge l r }
{
    word::wanted_bits(edge, l, r)
}

// A masked compare-and-swap as C is told of it: whether it was done, and the word that it leaves.
#[repr(C)]
#[derive(Clone, Copy)]
pub struct Swap {
    pub done: bool,
    pub word: u64,
}

// The swap of an answer for the word found.
fn swap_of(left: Option<u64>, found: u64) -> Swap
    ensures { record { done = result.done; word = result.word } ≡ swap_of left found }
{
    Swap {
        done: left.is_some(),
        word: left.unwrap_or(found),
    }
}

#[unsafe(no_mangle)]
pub extern "C" fn probe_masked_swap(
    word: u64,
    compared: u64,
    expected: u64,
    swapped: u64,
    value: u64,
) -> Swap
    ensures { record { done = result.done; word = result.word } ≡ masked_swap compared expected swapped value word }
{
    swap_of(
        word::masked_swap(word, compared, expected, swapped, value),
        word,
    )
}

#[unsafe(no_mangle)]
pub extern "C" fn probe_take_bits(word: u64, bits: u64) -> Swap
    ensures { record { done = result.done; word = result.word } ≡ take_bits bits word }
{
    swap_of(word::take_bits(word, bits), word)
}

#[unsafe(no_mangle)]
pub extern "C" fn probe_give_bits(word: u64, bits: u64) -> Swap
    ensures { record { done = result.done; word = result.word } ≡ give_bits bits word }
{
    swap_of(word::give_bits(word, bits), word)
}

#[unsafe(no_mangle)]
pub extern "C" fn probe_level(n: u64) -> u64
    requires { Node 12 n }
    ensures { result ≡ level n }
{
    tree::level(n)
}

#[unsafe(no_mangle)]
pub extern "C" fn probe_parent(n: u64) -> u64
    requires { Node 12 n }
    ensures { result ≡ parent n }
{
    tree::parent(n)
}

#[unsafe(no_mangle)]
pub extern "C" fn probe_child(n: u64, i: u64) -> u64
    requires { Node 12 n × (i < 4) }
    ensures { result ≡ child n i }
{
    tree::child(n, i)
}

#[unsafe(no_mangle)]
pub extern "C" fn probe_first_node(d: u64) -> u64
    requires { (1 ≤ d) × (d ≤ 13) }
    ensures { result ≡ first d }
{
    tree::first_node(d)
}

#[unsafe(no_mangle)]
pub extern "C" fn probe_last_node(d: u64) -> u64
    requires { (1 ≤ d) × (d ≤ 12) }
    ensures { result ≡ last d }
{
    tree::last_node(d)
}

#[unsafe(no_mangle)]
pub extern "C" fn probe_left_edge(h: u64, n: u64) -> u64
    requires { (h ≤ 12) × Node h n }
    ensures { result ≡ left h n }
{
    tree::left_edge(h, n)
}

#[unsafe(no_mangle)]
pub extern "C" fn probe_size(h: u64, n: u64) -> u64
    requires { (h ≤ 12) × Node h n }
    ensures { result ≡ size h n }
{
    tree::size(h, n)
}

#[unsafe(no_mangle)]
pub extern "C" fn probe_ancestor(n: u64, d: u64) -> u64
    requires { Node 12 n × (1 ≤ d) × (d ≤ level n) }
    ensures { result ≡ ancestor d n }
{
    tree::ancestor(n, d)
}

#[unsafe(no_mangle)]
pub extern "C" fn probe_ancestor_at(n: u64, i: u64) -> u64
    requires { Node 12 n × (i < length (ancestors n)) }
    ensures { result ≡ get_or (ancestors n) i 0 }
{
    tree::ancestor_at(n, i)
}

#[unsafe(no_mangle)]
pub extern "C" fn probe_notify_count(m: u64, n: u64) -> u64
    requires { (1 ≤ m) × (m ≤ 4) × Node 12 n }
    ensures { result ≡ length (notify_list m n) }
{
    tree::notify_count(m, n)
}

#[unsafe(no_mangle)]
pub extern "C" fn probe_notify_node(m: u64, n: u64, i: u64) -> u64
    requires { (1 ≤ m) × (m ≤ 4) × Node 12 n × (i < length (notify_list m n)) }
    ensures { result ≡ get_or (notify_list m n) i 0 }
{
    tree::notify_node(m, n, i)
}

#[unsafe(no_mangle)]
pub extern "C" fn probe_check_count(h: u64, m: u64, n: u64) -> u64
    requires { (h ≤ 12) × (1 ≤ m) × (m ≤ 4) × Node h n }
    ensures { result ≡ length (check_list h m n) }
{
    tree::check_count(h, m, n)
}

#[unsafe(no_mangle)]
pub extern "C" fn probe_check_node(h: u64, m: u64, n: u64, i: u64) -> u64
    requires { (h ≤ 12) × (1 ≤ m) × Node h n × (i < length (check_list h m n)) }
    ensures { result ≡ get_or (check_list h m n) i 0 }
{
    tree::check_node(h, m, n, i)
}

#[unsafe(no_mangle)]
pub extern "C" fn probe_cover(h: u64, l: u64, r: u64) -> cover::Answer
    ensures { result ≡ answer h l r }
{
    cover::cover(h, l, r).into()
}

#[unsafe(no_mangle)]
pub extern "C" fn probe_act(
    client: lock::Client,
    words: &mut [u64],
    settings: lock::Settings,
    call: lock::Call,
    kind: u64,
) -> lock::Stepped
    ensures answer { result ≡ answer_to settings client words.old (call_of kind call.client call.a call.b) }
    ensures words { words.new ≡ words_after settings client words.old (call_of kind call.client call.a call.b) }
{
    client.stepped(client.act(words, settings, call, kind))
}

#[unsafe(no_mangle)]
pub extern "C" fn probe_unreadable(
    client: lock::Record,
    settings: lock::Settings,
    last: u64,
) -> bool
    requires { Settled settings }
    ensures { result ≡ unreadable settings client last }
{
    client.unreadable(lock::ValidSettings { values: settings }, last)
}
