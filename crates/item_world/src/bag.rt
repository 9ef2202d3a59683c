//! Every packet that was ever sent, as a list.

use crate::side::Side;
use xns_spp::{Bytes, Listed};

/// Every packet that was ever sent, in order, each with the end that sent it; contracts see the list of them.
pub type Bag = Listed<(Side, Bytes)>;
