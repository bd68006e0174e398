//! A view that is lent.
use al_base::{Address, Key};
use al_rows::{Row, RowView, ViewFault};

/// A view that is lent. It goes into a generic function by value, which gives it back alone.
#[derive(Drop)]
pub struct Lent<'a, V: RowView> {
    pub view: &'a mut V,
}

impl<'a, V: RowView> RowView for Lent<'a, V> {
    type Fault = V::Fault;

    ghost tells = { V.tells };

    ghost rows = { λ l. V.rows l.view.now };

    ghost failures = { λ l. V.failures l.view.now };

    ghost lender = { λ l. l.view.ghost_name };

    fn row(&mut self, key: &Key) -> Result<Option<Row>, ViewFault<V::Fault>> {
        self.view.row(key)
    }

    fn creator(&mut self, id: u64) -> Result<Option<Address>, ViewFault<V::Fault>> {
        self.view.creator(id)
    }
}
