// What a reading of taps costs, gap by gap, by which somebody checks a desk's word by hand.
//
// A line of tap times is heard as the calls of a desk, one after another, up to the first that it would refuse
// (`specs/TapLine.antt`); a reading with a note for each gap is told with what each gap costs, and all together
// (`specs/Pricing.antt`). Costs are those of the definition of readings, term by term, and share no code with what finds
// the least; that the two agree is promised of all taps (`specs/Laws.antt`). Read `costs.rt` first.
#![tactic(auto)]

ghost use Rattle.pricing.specs.Laws.{PricesAgree};

pub mod costs;
pub mod gap;
pub mod price;
pub mod tap_line;
pub mod tap_list;
#[cfg(test)]
mod tests;

// What a desk tells of taps, printed on two lines, is priced as what it costs.
pub fn prices_stand()
    ensures { PricesAgree }
{}
