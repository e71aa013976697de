//! Laws of appends that are cut off.

ghost use Rattle.torn_appends.specs.TornAppends.{AppendsTorn};

use site_memory::laws::chosen_are_images;

/// Behind the first of an append's calls a crash leaves the body standing exactly where the gate was written and is left raised, and
/// behind all four of them whatever it leaves. Where a call of the gate fails, the body stands as the files read exactly where the gate was
/// written.
pub fn appends_torn()
    ensures { AppendsTorn }
{
    chosen_are_images();
}
