//! How a run begins.

ghost use Rattle.std.specs.Prelude.{◌≡◌, length};
ghost use Rattle.allot.specs.Runs.{Fresh, in_line, State};

use super::{BY_BREW, Held, Run};
use crate::open_market::OpenMarket;
use line::Line;
use orders::book::OrderBook;
use orders::limits::MOST;

impl Run {
    /// A run in which nobody is held, and nobody is in line yet.
    fn fresh() -> Run
        ensures { Fresh 0 result }
    {
        Run {
            line: Line::new(),
            slots: [0; MOST],
            waiting: [true; MOST],
            held: [Held {
                count: 0,
                last: None,
            }; BY_BREW],
        }
    }

    /// Has every taker stand at the brew of the choice that it ranks highest, and wait there.
    pub(crate) fn begin<T: OrderBook, B: OrderBook>(
        market: &OpenMarket<T, B>,
        stands: &mut [u8],
    ) -> Run
        requires { length stands.old ≡ market.now.choice.now.figures.takers }
        ensures { State market.now stands.new result (in_line result) }
    {
        let mut run = Run::fresh();
        for (taker, stand) in stands.iter_mut().enumerate() {
            *stand = market.next_brew(taker, 0).unwrap() as u8;
            run.wait(taker);
        }
        run
    }
}
