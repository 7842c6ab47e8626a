// Whether a pair is listed.
ghost use Rattle.std.specs.Prelude.{◌≡◌};
ghost use Rattle.inference.specs.Rules.{listed};

use memory::lines::Line;

// A line of the list says that the first comes before the second.
pub fn is_listed(lines: &[Line], first: u8, second: u8) -> bool
    ensures { result ≡ listed lines.now first second }
{
    lines
        .iter()
        .any(|line| line.first == first && line.second == second)
}
