//! That of one journal one page is printed.

ghost use Rattle.journal_page.specs.Pages.{OneIsPrinted};

use record_bytes::read::are_apart;

/// Of files that stand for records their page is printed, and no other text.
pub fn one_page_is_printed()
    ensures { OneIsPrinted }
{
    are_apart();
}
