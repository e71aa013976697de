//! Laws of the disk in memory.

ghost use Rattle.site_memory.specs.ByteImages.{ImagesAreBytewise};
ghost use Rattle.site_memory.specs.Disk.{ChosenAreImages};
ghost use Rattle.site_memory.specs.ToldCalls.{CallsFailAsTold, LinksHold};

/// What a crash may leave of the two files is said byte by byte: each byte that isn't pending stays, and nothing more is said.
pub fn images_are_bytewise()
    ensures { ImagesAreBytewise }
{}

/// A machine that was told which of its calls is to fail fails that one, and no other.
pub fn calls_fail_as_told()
    ensures { CallsFailAsTold }
{}

/// No link of a machine that tells what it was told to fail has failed.
pub fn links_hold()
    ensures { LinksHold }
{}

/// What a crash leaves that was chosen is one of the things that a crash may leave.
pub fn chosen_are_images()
    ensures { ChosenAreImages }
{}
