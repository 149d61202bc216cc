//! The version of the program.

ghost use Rattle.std.specs.Prelude.{◌≡◌};
ghost use Rattle.gl_top.specs.Shown.{version_line};

// The line of the version.
const LINE: &[u8] = b"glacier 0.2\n";

/// The line of the version.
#[tactic(auto, unfolding(crate::specs::Shown::version_line))]
pub(crate) fn version_text() -> &'static [u8]
    ensures { result.now ≡ version_line }
{
    LINE
}
