//! Which services serve. The function does nothing: its contract is a law, proved like any other contract.
ghost use Rattle.snaptr_app.specs.Laws.{ServesWhereItFits};

/// Services serve exactly where they are well formed and have a service, and a protocol, that is wanted.
pub fn services_serve_where_they_fit()
    ensures { ServesWhereItFits }
{}
