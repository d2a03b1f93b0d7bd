ghost use Rattle.le_bundle.specs.Written.{BundlesReadBack};

/// The text of a bundle reads back as this bundle. It does nothing.
pub fn bundles_read_back()
    ensures { BundlesReadBack }
{}
