//! What a certificate's items are, for callers to cite. Nothing here is done at run time.
ghost use Rattle.cert_upgrade.specs.Items.{ItemsAreOne};

/// Nothing is done. The clause tells a caller that bytes have one list of items at most, and none
/// where they have a fault: so of bytes that are told one thing comes, but for failures of the
/// folder and lack of memory.
pub fn items_are_one()
    ensures { ItemsAreOne }
{}
