// A chain as it is given from C and from hosts: the flat list T, D, F, T, D, F, .. of its tasks, the number of places, and the gap.
// No chain is made of it: the calls take the front of the list that holds the tasks at the places.
#![tactic(auto)]

ghost use Rattle.std.specs.Prelude.{◌≡◌, ◌*◌};
ghost use Rattle.capi_chain.specs.FlatChain.{places_of};

// How many numbers of a list hold the tasks at the places; none where the list does not hold that many tasks.
#[tactic(auto, unfolding(crate::specs::FlatChain::places_of))]
pub fn flat_length(length: usize, places: usize) -> usize
    ensures { result ≡ 3 * places_of length places }
{
    if length % 3 != 0 {
        return 0;
    }
    if length / 3 < places {
        return 0;
    }
    3 * places
}
