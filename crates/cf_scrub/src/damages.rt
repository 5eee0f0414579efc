//! What is wrong with the bytes of a device.

ghost use Rattle.std.specs.Prelude.{◌≡◌};
ghost use Rattle.cf_scrub.specs.Texts.{kind_word};

/// A kind of damage. What `Damage::at` counts goes by the kind.
#[derive(Clone, Copy)]
pub enum DamageKind {
    /// The size is none of a device: it is at the size.
    Size,
    /// No slot has an open gate and a spelled header: at 0.
    NoSlot,
    /// The image of the slot that is the volume is not spelled: at the byte at which its first field that is not begins.
    Image,
    /// A record is not spelled: at the byte at which its first field that is not begins.
    Record,
    /// There are more rows than a volume has, or the image of the state is longer than one is: at 0.
    Large,
    /// The row of an item has no place in the tree, or the name of one before it there: at the item.
    Tree,
    /// The row of an item is not sound: at the item.
    Row,
    /// A run of an item passes its size, a byte that is not here is valid or modified, or a directory has a run: at the item.
    Runs,
    /// The extents of an item are not just those of its blocks that have a byte here: at the item.
    Extents,
    /// A cluster is held a second time, or is none of the device: at the cluster.
    Cluster,
}

/// One thing that is wrong with the bytes of a device.
#[derive(Clone, Copy)]
pub struct Damage {
    pub kind: DamageKind,
    /// A size, a byte, an item or a cluster, as the kind says.
    pub at: u64,
}

/// The word of a kind in the text of a judgement.
pub(crate) fn kind_word(kind: DamageKind) -> &'static str
    ensures { result.now ≡ kind_word kind }
{
    match kind {
        DamageKind::Size => "size",
        DamageKind::NoSlot => "noslot",
        DamageKind::Image => "image",
        DamageKind::Record => "record",
        DamageKind::Large => "large",
        DamageKind::Tree => "tree",
        DamageKind::Row => "row",
        DamageKind::Runs => "runs",
        DamageKind::Extents => "extents",
        DamageKind::Cluster => "cluster",
    }
}
