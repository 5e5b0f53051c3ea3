// Puncturing: where among the sums each kept bit stands, and the coded bits of a symbol.
ghost use Rattle.std.specs.Prelude.{◌≡◌, ◌+◌, ◌*◌, length, get_or};
ghost use Rattle.laws.specs.Filled.{Filled};
ghost use Rattle.puncturing.specs.Coded.{sum_place, PlaceAsked, PlacesAsked, PickAsked, CodedAsked, Coded};

use chain::plan::MOST_CODED;
use encoder::sums::both_sums;

// Where the sum stands that kept bit y of encoder 0 is: each group of KEPT bits is A0 B0 A1 B2 A3 B4, as far as it goes.
fn sum_place<const KEPT: u16>(encoders: u16, y: u16) -> u16
    requires { PlaceAsked KEPT encoders y }
    ensures { result ≡ sum_place KEPT encoders y }
{
    // A group of an even number of bits leaves each its parity.
    if KEPT % 2 == 0 {
        return y % 2 * 2160 + encoders * (y * (KEPT - 1) / KEPT);
    }
    y % KEPT % 2 * 2160 + encoders * (y - (y + KEPT - 1) / KEPT)
}

fn sum_places<const KEPT: u16>(places: &mut [u16], encoders: u16)
    requires { PlacesAsked places.old KEPT encoders }
    ensures { Filled 0 0 (λ y. sum_place KEPT encoders y) (length places.old) places.old places.new }
{
    for y in 0..places.len() {
        places[y] = sum_place::<KEPT>(encoders, y as u16);
    }
}

fn places_at(places: &mut [u16], kept: usize, encoders: usize)
    requires { PlacesAsked places.old kept encoders }
    ensures { Filled 0 0 (λ y. sum_place kept encoders y) (length places.old) places.old places.new }
{
    let encoders = encoders as u16;
    match kept {
        2 => sum_places::<2>(places, encoders),
        3 => sum_places::<3>(places, encoders),
        4 => sum_places::<4>(places, encoders),
        _ => sum_places::<6>(places, encoders),
    }
}

// The bits of encoder j: its sums stand j places after those of encoder 0.
fn pick(coded: &mut [u8], sums: &[u8], places: &[u16], j: usize)
    requires { PickAsked coded.old sums.now places.now j }
    ensures { Filled 0 0 (λ y. get_or sums.now (get_or places.now y 0 + j) 0) (length places.now) coded.old coded.new }
{
    for y in 0..places.len() {
        coded[y] = sums[places[y] as usize + j];
    }
}

// The coded bits of a symbol: bit y of encoder j at 1296·j + y.
pub fn coded_bits(coded: &mut [u8], line: &[u8], encoders: usize, kept: usize, groups: usize)
    requires { CodedAsked coded.old line.now encoders kept groups }
    ensures { Coded (λ e. get_or line.now e 0) encoders kept (kept * groups) coded.old coded.new }
{
    let mut sums = [0u8; 4320];
    let mut places = [0u16; MOST_CODED];
    let share = kept * groups;
    both_sums(&mut sums, line, encoders, encoders * ((kept - 1) * groups));
    let places = &mut places[..share];
    places_at(places, kept, encoders);
    pick(&mut coded[..share], &sums, places, 0);
    if encoders == 2 {
        pick(&mut coded[1296..1296 + share], &sums, places, 1);
    }
}
