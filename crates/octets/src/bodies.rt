// Data and the bytes that it holds.
ghost use Rattle.std.specs.Prelude.{◌≡◌, [], min, take, drop};
ghost use Rattle.laws.specs.Bytes.{zeros};
ghost use Rattle.octets.specs.Data.{most_data, six, data_of, places_of, tidy};

use crate::places::byte_at;
use crate::{Data, MOST};
use std::array;

fn least_of_six(n: usize) -> u8
    ensures { result ≡ min most_data n }
{
    n.min(MOST as usize) as u8
}

#[tactic(auto, unfolding(crate::specs::Data::data_of))]
pub fn no_data() -> Data
    ensures { result ≡ data_of [] }
{
    Data {
        len: 0,
        places: [0; MOST as usize],
    }
}

// The first six bytes of a slice, 0 where there are fewer.
fn six_of(bytes: &[u8]) -> [u8; 6]
    ensures { result ≡ six bytes.now }
{
    array::from_fn(|i| byte_at(bytes, i))
}

// The bytes of a slice, of which at most six have room.
pub fn data_from(bytes: &[u8]) -> Data
    ensures { result ≡ data_of (take most_data bytes.now) }
{
    Data {
        len: least_of_six(bytes.len()),
        places: six_of(bytes),
    }
}

// The six places of data: the first len of them are its bytes.
pub fn places_of(d: Data) -> [u8; 6]
    ensures { result ≡ places_of d }
{
    d.places
}

// Whether each place that the bytes leave unused is 0. By each place's number, and none where all are used: so the array stays in registers, and
// `iter().skip` took a third more of a call of `sds_write`.
fn rest_is_zero(held: Data) -> bool
    ensures { result ≡ zeros (drop held.len held.places) }
{
    let len = held.len as usize;
    held.len >= MOST
        || held
            .places
            .iter()
            .enumerate()
            .all(|(i, b)| i < len || *b == 0)
}

// Whether data has at most so many bytes, and 0 in each place that they leave unused.
#[tactic(auto, using(crate::proofs::Datas::tidy_tested))]
pub fn is_tidy(most: u8, d: Data) -> bool
    ensures { result ≡ tidy most d }
{
    d.len <= most && rest_is_zero(d)
}
