//! The instances that refer to one.

use crate::entities::{is_a, is_of};
use crate::mentions::Mention;
use crate::push::push;
use crate::world::FileWorld;
use p21_names::{InverseForm, Role, role_of};
use p21_values::{Budget, Kind, Stop, Value, aggregate};

impl<'x, 'a> FileWorld<'x, 'a> {
    /// USEDIN: the instances that refer to a value by an attribute, each as often as it does.
    pub fn users<'w>(
        &'w self,
        budget: &mut Budget,
        of: &Value<'w>,
        number: u32,
    ) -> Result<Value<'w>, Stop> {
        let users = match of {
            Value::Instance(place) => {
                self.users_of(
                    budget,
                    *place,
                    role_of(self.dictionary.names.len(), number),
                    false,
                )?
            }
            _ => Vec::new(budget.alloc()),
        };
        aggregate(Kind::Bag, users, budget)
    }

    /// The instances that refer to the one at a place by an attribute, or by any; each once, or as often as it does.
    fn users_of<'w>(
        &'w self,
        budget: &mut Budget,
        place: u32,
        role: Option<Role>,
        is_once: bool,
    ) -> Result<Vec<Value<'w>>, Stop> {
        let mut users = Vec::new(budget.alloc());
        let mut last = None;
        for mention in self.mentions.of(place) {
            budget.take()?;
            let is_told = is_once && last == Some(mention.source);
            if !is_told && self.is_in_role(role, *mention) {
                push(&mut users, Value::Instance(mention.source))?;
                last = Some(mention.source);
            }
        }
        Ok(users)
    }

    /// Whether a mention is one by an attribute.
    fn is_in_role(&self, role: Option<Role>, mention: Mention) -> bool {
        let Some(role) = role else {
            return true;
        };
        let Some((name, declarer)) = self.dictionary.declared_at(mention.attribute as usize) else {
            return false;
        };
        let schema = self.dictionary.schema;
        name == role.attribute
            && is_a(schema, role.entity, declarer)
            && is_of(schema, self.entities.of(mention.source), role.entity)
    }

    /// The value of an inverse attribute.
    pub(crate) fn inverse<'w>(
        &'w self,
        budget: &mut Budget,
        of: &Value<'w>,
        form: InverseForm,
        role: Role,
    ) -> Result<Value<'w>, Stop> {
        let is_once = form != InverseForm::Bag;
        let users = match of {
            Value::Instance(place) => self.users_of(budget, *place, Some(role), is_once)?,
            _ => Vec::new(budget.alloc()),
        };
        match form {
            InverseForm::Bag => aggregate(Kind::Bag, users, budget),
            InverseForm::Set => aggregate(Kind::Set, users, budget),
            InverseForm::One => match users.as_slice() {
                [user] => Ok(user.share()?),
                _ => Ok(Value::Indeterminate),
            },
        }
    }
}
