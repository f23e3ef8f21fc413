//! What threads may do with a monitor. The function does nothing: that it is proved is what it says.

use ccsl_relate::Monitor;

fn crosses_threads<T: Send + Sync>() {}

/// A monitor may go to another thread, and threads may share one.
pub fn monitors_cross_threads() {
    crosses_threads::<Monitor>();
}
