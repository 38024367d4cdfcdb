//! What may be used by several threads.

/// A value crosses to another thread, and several share it.
pub fn crosses<T: Send + Sync>(_value: &T) {}
