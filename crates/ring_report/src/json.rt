//! Writes a report as JSON.
use crate::origin::Origin;
use crate::report::{Cell, Column, Field, Report};
use serde_json::{Map, Value, put};
use std::alloc::{AllocError, Global};

fn value_of(alloc: Global, cell: &Cell) -> Result<Value, AllocError> {
    Ok(match cell {
        Cell::Nothing => Value::Null,
        Cell::Unsigned(value) => Value::from(*value),
        Cell::Signed(value) => Value::from(*value),
        Cell::State(state) => Value::try_from_str(alloc, state.name())?,
        Cell::Text(text) => Value::try_from_str(alloc, text.as_str())?,
    })
}

fn add_cell(
    object: &mut Map<String, Value>,
    alloc: Global,
    column: &Column,
    cell: &Cell,
) -> Result<(), AllocError> {
    put(object, alloc, column.name, value_of(alloc, cell)?)
}

fn add_cells(
    object: &mut Map<String, Value>,
    alloc: Global,
    columns: &[Column],
    row: &[Cell],
) -> Result<(), AllocError> {
    for (column, cell) in columns.iter().zip(row) {
        add_cell(object, alloc, column, cell)?;
    }
    Ok(())
}

fn row_value(alloc: Global, columns: &[Column], row: &[Cell]) -> Result<Value, AllocError> {
    let mut object = Map::new(alloc);
    add_cells(&mut object, alloc, columns, row)?;
    Ok(Value::from(object))
}

fn rows_value(alloc: Global, columns: &[Column], rows: &[Vec<Cell>]) -> Result<Value, AllocError> {
    let mut values = Vec::new(alloc);
    for row in rows {
        values.push(row_value(alloc, columns, row.as_slice())?)?;
    }
    Ok(Value::from(values))
}

fn texts_value(alloc: Global, texts: &[String]) -> Result<Value, AllocError> {
    let mut values = Vec::new(alloc);
    for text in texts {
        values.push(Value::try_from_str(alloc, text.as_str())?)?;
    }
    Ok(Value::from(values))
}

fn add_fields(
    object: &mut Map<String, Value>,
    alloc: Global,
    fields: &[Field],
) -> Result<(), AllocError> {
    for field in fields {
        let value = field.value.map_or(Value::Null, Value::from);
        put(object, alloc, field.name, value)?;
    }
    Ok(())
}

/// Returns an object with the fields.
fn object_of(alloc: Global, fields: &[Field]) -> Result<Value, AllocError> {
    let mut object = Map::new(alloc);
    add_fields(&mut object, alloc, fields)?;
    Ok(Value::from(object))
}

/// Returns a number, or `null`.
fn number_value(number: Option<u64>) -> Value {
    number.map_or(Value::Null, Value::from)
}

/// Adds texts with their names.
fn add_texts(
    object: &mut Map<String, Value>,
    alloc: Global,
    members: &[(&'static str, &str)],
) -> Result<(), AllocError> {
    for (name, text) in members {
        put(object, alloc, name, Value::try_from_str(alloc, text)?)?;
    }
    Ok(())
}

/// Adds the file, the place and the name.
fn add_origin(
    object: &mut Map<String, Value>,
    alloc: Global,
    origin: Origin<'_>,
) -> Result<(), AllocError> {
    let (what, source) = origin.source();
    put(object, alloc, what, Value::try_from_str(alloc, source)?)?;
    put(object, alloc, "address", Value::from(origin.at))?;
    match origin.name {
        Some(name) => put(object, alloc, "name", Value::try_from_str(alloc, name)?),
        None => Ok(()),
    }
}

impl Report {
    /// Returns the report as an object of JSON, on several lines. The object has the kind of the report, its origin,
    /// its fields and details, the number of each kind, the list, how many rows were left out, and the findings.
    pub fn to_json(&self, alloc: Global, origin: Option<Origin<'_>>) -> Result<String, AllocError> {
        let mut text = self.object(alloc, origin)?.to_string_pretty(alloc)?;
        text.push('\n')?;
        Ok(text)
    }

    /// Returns the same object on one line, with further members that the caller gives as texts. This is the form of
    /// one of several documents.
    pub fn to_json_line(
        &self,
        alloc: Global,
        origin: Option<Origin<'_>>,
        members: &[(&'static str, &str)],
    ) -> Result<String, AllocError> {
        let mut object = Map::new(alloc);
        add_texts(&mut object, alloc, members)?;
        self.add_all(&mut object, alloc, origin)?;
        let mut text = Value::from(object).to_string(alloc)?;
        text.push('\n')?;
        Ok(text)
    }

    fn object(&self, alloc: Global, origin: Option<Origin<'_>>) -> Result<Value, AllocError> {
        let mut object = Map::new(alloc);
        self.add_all(&mut object, alloc, origin)?;
        Ok(Value::from(object))
    }

    /// Adds all members.
    fn add_all(
        &self,
        object: &mut Map<String, Value>,
        alloc: Global,
        origin: Option<Origin<'_>>,
    ) -> Result<(), AllocError> {
        if let Some(origin) = origin {
            add_origin(object, alloc, origin)?;
        }
        self.add_whole(object, alloc)?;
        self.add_standing(object, alloc)?;
        self.add_list(object, alloc)
    }

    /// Adds the kind of the report, its fields and details, and the number of each kind.
    fn add_whole(&self, object: &mut Map<String, Value>, alloc: Global) -> Result<(), AllocError> {
        add_fields(object, alloc, self.fields.as_slice())?;
        add_fields(object, alloc, self.details.as_slice())?;
        let counts = object_of(alloc, self.counts.as_slice())?;
        put(object, alloc, "counts", counts)?;
        let kind = Value::try_from_str(alloc, self.kind)?;
        put(object, alloc, "kind", kind)
    }

    /// Adds the record at which a read of a ring stops, the time for which its consumer was blocked there, and whether
    /// the positions stayed the same.
    fn add_standing(
        &self,
        object: &mut Map<String, Value>,
        alloc: Global,
    ) -> Result<(), AllocError> {
        if self.kind == "counters" || self.kind == "recovered" {
            return Ok(());
        }
        put(object, alloc, "settled", Value::from(self.is_settled))?;
        if self.kind == "ring" {
            let place = self.stop.map(|stop| stop.place);
            let blocked_at = if self.is_blocked() { place } else { None };
            put(object, alloc, "stops_at", number_value(place))?;
            put(object, alloc, "blocked_at", number_value(blocked_at))?;
            put(object, alloc, "blocked_ms", number_value(self.blocked_ms))?;
            self.add_claim(object, alloc)?;
        }
        Ok(())
    }

    /// Adds the type id and the length of the open claim at which a read stops.
    fn add_claim(&self, object: &mut Map<String, Value>, alloc: Global) -> Result<(), AllocError> {
        let claim = self.stop.and_then(|stop| stop.claim);
        let (type_id, length) = match claim {
            Some(claim) => (Value::from(claim.type_id), Value::from(claim.length)),
            None => (Value::Null, Value::Null),
        };
        put(object, alloc, "open_type", type_id)?;
        put(object, alloc, "open_length", length)
    }

    /// Adds the list, how many rows were left out, and the findings.
    fn add_list(&self, object: &mut Map<String, Value>, alloc: Global) -> Result<(), AllocError> {
        let rows = rows_value(alloc, self.columns, self.rows.as_slice())?;
        put(object, alloc, self.list, rows)?;
        put(object, alloc, "unlisted", Value::from(self.unlisted))?;
        let findings = texts_value(alloc, self.findings.as_slice())?;
        put(object, alloc, "findings", findings)
    }
}
