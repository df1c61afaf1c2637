// The lines that say a call, as scanners put together.
ghost use Rattle.std.specs.Prelude.{codes};

use crate::counted::Counted;
use forms::{Key, Keyed, Parted};
use integers::NineDigits;

pub(crate) struct FoundKey;

impl Key for FoundKey {
    ghost key = { codes "found " };

    fn key() -> &'static [u8] {
        b"found "
    }
}

pub(crate) struct FuseKey;

impl Key for FuseKey {
    ghost key = { codes "fuse " };

    fn key() -> &'static [u8] {
        b"fuse "
    }
}

pub(crate) struct CountKey;

impl Key for CountKey {
    ghost key = { codes "count " };

    fn key() -> &'static [u8] {
        b"count "
    }
}

pub(crate) struct RetireKey;

impl Key for RetireKey {
    ghost key = { codes "retire " };

    fn key() -> &'static [u8] {
        b"retire "
    }
}

pub(crate) struct MoveKey;

impl Key for MoveKey {
    ghost key = { codes "move " };

    fn key() -> &'static [u8] {
        b"move "
    }
}

pub(crate) struct MinusKey;

impl Key for MinusKey {
    ghost key = { codes "-" };

    fn key() -> &'static [u8] {
        b"-"
    }
}

pub(crate) struct ChainKey;

impl Key for ChainKey {
    ghost key = { codes "chain=" };

    fn key() -> &'static [u8] {
        b"chain="
    }
}

type ChainWord = Keyed<ChainKey, Counted>;

type Two<T> = Parted<NineDigits, Parted<NineDigits, T>>;

pub(crate) type Founding = Keyed<FoundKey, Two<ChainWord>>;

pub(crate) type FusingByCount = Keyed<FuseKey, Parted<NineDigits, Keyed<CountKey, ChainWord>>>;

pub(crate) type FusingByBits = Keyed<FuseKey, Parted<NineDigits, Two<Two<ChainWord>>>>;

pub(crate) type Retiring = Keyed<RetireKey, NineDigits>;

pub(crate) type MovingUp = Keyed<MoveKey, Two<NineDigits>>;

pub(crate) type MovingDown = Keyed<MoveKey, Two<Keyed<MinusKey, NineDigits>>>;
