//! The law, the contract of a function that does nothing.

ghost use Rattle.open_points.specs.Points.{OpenProblemsHold};

use search_laws::laws::searches_end_there;

/// The path of an open condition leads to a problem of rows and equations alone, which hold at a point in fractions; a state is
/// known exactly where there is a trial point in whole numbers.
pub fn open_problems_hold_at_points()
    ensures { OpenProblemsHold }
{
    searches_end_there();
}
