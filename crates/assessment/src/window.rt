//! The five-hour windows.
ghost use Rattle.std.specs.Prelude.{◌≡◌, ◌≤◌};
ghost use Rattle.assessment.specs.Rules.{in_window};

const WINDOW_HOURS: u32 = 5;

/// Whether the hour ending lies in the window that starts with the hour ending `start`.
pub(crate) fn in_window(start: u32, hour: u32) -> bool
    requires { start ≤ 20 }
    ensures { result ≡ in_window start hour }
{
    // Two comparisons: by `contains` a count of hours and days takes more than twice the instructions.
    start <= hour && hour < start + WINDOW_HOURS
}
