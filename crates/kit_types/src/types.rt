//! The types of a kit's devices.

use edge_traits::{Clock, Dialer, Keeper, Kit, Station};

/// The types of the devices of kits that may be handed to threads.
pub trait KitTypes {
    type Dialer: Dialer<Link: Send> + Send + Drop;

    type Station: Station + Send + Drop;

    type Keeper: Keeper + Send + Drop;

    type Clock: Clock + Send + Drop;
}

/// A kit with devices of these types.
pub type KitOf<X> = Kit<
    <X as KitTypes>::Dialer,
    <X as KitTypes>::Station,
    <X as KitTypes>::Keeper,
    <X as KitTypes>::Clock,
>;

impl<
    D: Dialer<Link: Send> + Send + Drop,
    S: Station + Send + Drop,
    K: Keeper + Send + Drop,
    C: Clock + Send + Drop,
> KitTypes for Kit<D, S, K, C> {
    type Dialer = D;

    type Station = S;

    type Keeper = K;

    type Clock = C;
}
