// The line of a day, added up from its rows.
ghost use Rattle.std.specs.Prelude.{◌≡◌, ℕ, ◌+◌, ◌*◌, ◌^◌, ◌≤◌, true, ◌+ℤ◌, slice_index_or, unsigned_abs};
ghost use Rattle.settlement.specs.Bounds.{is_small_amounts};
ghost use Rattle.book.specs.Lines.{day_of, no_row};
ghost use Rattle.statement.specs.Days.{is_day_part, AmountsRoom, DayRoom, amounts_plus, day_plus};

use book::{DayLine, Row};
use settlement::{Amounts, HourLine, State};

fn plus(sum: i64, figure: i64) -> i64
    requires sum { unsigned_abs sum ≤ 24 * 2 ^ 47 }
    requires figure { unsigned_abs figure ≤ 2 ^ 47 }
    ensures { result ≡ sum +ℤ figure }
{
    sum + figure
}

fn plus_amounts(sum: &Amounts, amounts: &Amounts) -> Amounts
    requires sum { AmountsRoom sum.now 24 }
    requires amounts { is_small_amounts amounts.now ≡ true }
    ensures { result ≡ amounts_plus sum.now amounts.now }
{
    Amounts {
        energy: plus(sum.energy, amounts.energy),
        loss: plus(sum.loss, amounts.loss),
        congestion: plus(sum.congestion, amounts.congestion),
        total: plus(sum.total, amounts.total),
    }
}

// One hour more. There is room for those of the longest day.
fn plus_line(day: &DayLine, line: &HourLine) -> DayLine
    requires day { DayRoom day.now 24 }
    requires line { is_day_part line.now ≡ true }
    ensures { result ≡ day_plus day.now line.now }
{
    DayLine {
        settled: day.settled + u8::from(line.state == State::Settled),
        intervals: day.intervals + line.intervals as u16,
        seconds: day.seconds + line.seconds as u32,
        ahead: plus_amounts(&day.ahead, &line.ahead),
        balance: plus(day.balance, line.balance),
        balancing: plus_amounts(&day.balancing, &line.balancing),
        spin: plus(day.spin, line.spin),
        total: plus(day.total, line.total),
    }
}

// The line of the day that has these rows.
pub(crate) fn added_up(rows: &[Row; 25]) -> DayLine
    requires { (h : ℕ) → is_day_part (slice_index_or rows.now h no_row).line ≡ true }
    ensures { result ≡ day_of rows.now }
{
    let mut day = DayLine::default();
    for row in rows {
        day = plus_line(&day, &row.line);
    }
    day
}
