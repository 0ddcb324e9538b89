use arrayvec::ArrayVec;
use sd_decimal::Limit;
use sd_outside::Name;

/// The bins of the timers whose names have the part `metric`: their upper limits, which ascend. The empty part
/// stands in each name.
#[derive(Clone, Debug, Default, PartialEq, Eq, Drop)]
pub struct Classes {
    pub metric: Name,
    pub limits: ArrayVec<Limit, 64>,
}

/// Where packets are repeated to.
#[derive(Clone, Debug, Default, PartialEq, Eq, Drop)]
pub struct Target {
    pub host: Name,
    pub port: u16,
}

/// A server behind the proxy, with the port at which it answers about itself.
#[derive(Clone, Debug, Default, PartialEq, Eq, Drop)]
pub struct Node {
    pub host: Name,
    pub port: u16,
    pub adminport: u16,
}
